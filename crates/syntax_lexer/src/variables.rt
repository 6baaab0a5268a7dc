//! Which names stand for what, where a text is read or written.

use indexmap::IndexSet;
use std::alloc::{AllocError, Global};
use std::cell::RefCell;
use std::collections::HashMap;
use std::mem;

/// The variables that are declared where a node stands, and what a closure takes from around it. They stand in a cell,
/// so that nodes are read and written by `&self`.
#[derive(Drop)]
pub struct Variables<'a> {
    alloc: Global,
    sight: RefCell<Sight<'a>>,
}

/// What is in sight.
#[derive(Drop)]
struct Sight<'a> {
    /// All variables, the latest last.
    declared: Vec<Declared<'a>>,
    /// Where the latest of each name stands among them.
    latest: HashMap<&'a str, usize>,
    /// What they stand in.
    frame: Frame<'a>,
}

/// A variable.
#[derive(Clone, Copy)]
struct Declared<'a> {
    name: &'a str,
    is_constant: bool,
    /// Where the one of its name stands that it hides.
    hides: Option<usize>,
}

/// A function, a closure or the script.
#[derive(Drop)]
pub struct Frame<'a> {
    /// Where its variables begin: none before is in sight.
    first: usize,
    /// The names that a closure takes from around it, in the order of their first uses.
    captured: Option<IndexSet<&'a str>>,
}

impl<'a> Sight<'a> {
    fn declare(&mut self, name: &'a str, is_constant: bool) -> Result<(), AllocError> {
        let hides = self.latest.get(&name).copied();
        let place = self.declared.len();
        self.declared.push(Declared {
            name,
            is_constant,
            hides,
        })?;
        self.latest.insert(name, place)?;
        Ok(())
    }

    /// Takes the latest variable away.
    fn forget(&mut self) -> Result<(), AllocError> {
        if let Some(declared) = self.declared.pop() {
            match declared.hides {
                Some(place) => {
                    self.latest.insert(declared.name, place)?;
                }
                None => {
                    self.latest.remove(&declared.name);
                }
            }
        }
        Ok(())
    }

    fn shorten(&mut self, count: usize) -> Result<(), AllocError> {
        for _ in count..self.declared.len() {
            self.forget()?;
        }
        Ok(())
    }

    /// The variable of a name, where one is in sight.
    fn find(&self, name: &str) -> Option<Declared<'a>> {
        let place = self.latest.get(&name).copied()?;
        if place < self.frame.first {
            return None;
        }
        self.declared.get(place).copied()
    }

    fn uses(&mut self, name: &'a str) -> Result<(), AllocError> {
        if self.find(name).is_some() {
            return Ok(());
        }
        if let Some(captured) = &mut self.frame.captured {
            captured.insert_full(name)?;
        }
        Ok(())
    }
}

impl<'a> Variables<'a> {
    /// No variables.
    pub fn new(alloc: Global) -> Variables<'a> {
        let sight = Sight {
            declared: Vec::new(alloc),
            latest: HashMap::new(alloc),
            frame: Frame {
                first: 0,
                captured: None,
            },
        };
        Variables {
            alloc,
            sight: RefCell::new(sight),
        }
    }

    /// Declares a variable.
    pub fn declare(&self, name: &'a str, is_constant: bool) -> Result<(), AllocError> {
        match self.sight.try_borrow_mut() {
            Ok(mut sight) => sight.declare(name, is_constant),
            Err(_) => Ok(()),
        }
    }

    /// How many there are, to come back to.
    pub fn count(&self) -> usize {
        match self.sight.try_borrow() {
            Ok(sight) => sight.declared.len(),
            Err(_) => 0,
        }
    }

    /// Takes away all but so many.
    pub fn shorten(&self, count: usize) -> Result<(), AllocError> {
        match self.sight.try_borrow_mut() {
            Ok(mut sight) => sight.shorten(count),
            Err(_) => Ok(()),
        }
    }

    /// Whether a name stands for a constant in sight.
    pub fn is_constant(&self, name: &str) -> bool {
        match self.sight.try_borrow() {
            Ok(sight) => matches!(sight.find(name), Some(found) if found.is_constant),
            Err(_) => false,
        }
    }

    /// Notes that a variable is read or written: one that is not in sight a closure takes from around it.
    pub fn uses(&self, name: &'a str) -> Result<(), AllocError> {
        match self.sight.try_borrow_mut() {
            Ok(mut sight) => sight.uses(name),
            Err(_) => Ok(()),
        }
    }

    /// Begins a function or a closure, in which no variable is in sight; what it stands in.
    pub fn enter(&self, is_closure: bool) -> Frame<'a> {
        let captured = if is_closure {
            Some(IndexSet::new(self.alloc))
        } else {
            None
        };
        self.changed_frame(Frame {
            first: self.count(),
            captured,
        })
    }

    /// Ends it; the names that it takes from around it.
    pub fn leave(&self, around: Frame<'a>) -> Result<Vec<&'a str>, AllocError> {
        let frame = self.changed_frame(around);
        self.shorten(frame.first)?;
        let mut names = Vec::new(self.alloc);
        if let Some(captured) = &frame.captured {
            for name in captured.iter() {
                names.push(*name)?;
            }
        }
        Ok(names)
    }

    /// Puts a frame in the place of another.
    fn changed_frame(&self, frame: Frame<'a>) -> Frame<'a> {
        match self.sight.try_borrow_mut() {
            Ok(mut sight) => mem::replace(&mut sight.frame, frame),
            Err(_) => frame,
        }
    }
}
