//! A tree that is asked, what is wanted of it, and how many were asked so far.

use crate::deep::Nest;
use std::alloc::Global;
use std::cell::Cell;
use tests_reader::Said;

/// How a run ends that comes to a node.
#[derive(Clone, Copy, PartialEq)]
pub enum Run {
    /// Stuck, before the host is asked.
    Stuck,
    /// Not stuck: it does not come to the node.
    Passed,
    /// In any way.
    Any,
}

/// What is wanted of a tree.
#[derive(Clone, Copy)]
pub struct Wanted {
    /// The number of its fault; 0 where there is none.
    pub fault: u8,
    pub is_plain: bool,
    pub run: Run,
}

impl Wanted {
    /// A tree without fault, of whose run nothing is wanted.
    pub const SOUND: Wanted = Wanted {
        fault: 0,
        is_plain: true,
        run: Run::Any,
    };
}

/// What was asked so far.
#[derive(Drop)]
pub struct Tally {
    pub said: Said,
    trees: Cell<usize>,
    calls: Cell<usize>,
    wrong: Cell<usize>,
    all_trees: Cell<usize>,
    all_calls: Cell<usize>,
    printed: Cell<usize>,
    unspelled: Cell<usize>,
    another: Cell<usize>,
}

impl Tally {
    pub fn new(alloc: Global) -> Tally {
        Tally {
            said: Said::new(alloc, false),
            trees: Cell::new(0),
            calls: Cell::new(0),
            wrong: Cell::new(0),
            all_trees: Cell::new(0),
            all_calls: Cell::new(0),
            printed: Cell::new(0),
            unspelled: Cell::new(0),
            another: Cell::new(0),
        }
    }

    pub fn into_text(self) -> String {
        let Tally { said, .. } = self;
        said.into_text()
    }

    /// Counts a tree.
    pub fn tree(&self) {
        add(&self.trees, 1);
    }

    /// Counts calls.
    pub fn calls(&self, count: usize) {
        add(&self.calls, count);
    }

    /// Counts a script that is printed in rhai's own syntax and read as one that does the same.
    pub fn printed(&self) {
        add(&self.printed, 1);
    }

    /// Counts one that no text spells.
    pub fn unspelled(&self) {
        add(&self.unspelled, 1);
    }

    /// Counts one whose text is not known to be read as what does the same.
    pub fn another(&self) {
        add(&self.another, 1);
    }

    /// Says how many trees of a kind were asked since this was said last.
    pub fn say(&self, kind: &str) {
        self.say_counts(kind, self.trees.replace(0), self.calls.replace(0));
    }

    fn say_counts(&self, kind: &str, trees: usize, calls: usize) {
        add(&self.all_trees, trees);
        add(&self.all_calls, calls);
        let said = &self.said;
        said.put(kind);
        said.put(": ");
        said.display(&trees);
        said.put(" trees, ");
        said.display(&calls);
        said.put(" calls\n");
    }

    /// Says how many were asked in all.
    pub fn say_all(&self) {
        self.say_counts(
            "in all",
            self.all_trees.replace(0),
            self.all_calls.replace(0),
        );
        self.say_sources();
        self.said.display(&self.wrong.get());
        self.said.put(" answers are not as wanted\n");
    }

    /// How many were asked for their text: each has one that does the same, none, or one that is read as another script.
    fn say_sources(&self) {
        let refused = self.unspelled.get().saturating_add(self.another.get());
        let said = &self.said;
        said.put("in rhai's own syntax: ");
        said.display(&self.printed.get().saturating_add(refused));
        said.put(" do the same, or are refused\n");
    }
}

fn add(count: &Cell<usize>, more: usize) {
    count.set(count.get().saturating_add(more));
}

/// A tree by its text, or a nest that is so deep.
#[derive(Clone, Copy)]
pub struct Case<'a> {
    pub alloc: Global,
    pub text: &'a str,
    pub nest: Option<(Nest, usize)>,
    pub wanted: Wanted,
    pub tally: &'a Tally,
}

impl<'a> Case<'a> {
    pub fn new(text: &'a str, wanted: Wanted, tally: &'a Tally) -> Case<'a> {
        Case {
            alloc: tally.said.alloc,
            text,
            nest: None,
            wanted,
            tally,
        }
    }

    pub fn of_nest(name: &'a str, nest: Nest, depth: usize, tally: &'a Tally) -> Case<'a> {
        Case {
            alloc: tally.said.alloc,
            text: name,
            nest: Some((nest, depth)),
            wanted: Wanted::SOUND,
            tally,
        }
    }

    /// Counts a call, and says so where its answer is not as wanted.
    pub fn want(&self, is_so: bool, what: &str) {
        self.tally.calls(1);
        if !is_so {
            self.say_wrong(what);
        }
    }

    fn say_wrong(&self, what: &str) {
        add(&self.tally.wrong, 1);
        let said = &self.tally.said;
        said.put(self.text);
        said.put("\nis not answered as wanted: ");
        said.put(what);
        said.put("\n\n");
    }

    /// Whether nothing is wrong with the tree.
    pub fn is_sound(&self) -> bool {
        self.wanted.fault == 0
    }
}
