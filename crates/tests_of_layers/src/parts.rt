//! Boxes, lists, maps, texts, names and paths.

use rhai_base::{FnName, Ident, ImmutableString, Namespace, Position, Rest, Seq, StringMap};
use tests_reader::Said;

pub fn answer(question: &str, text: &str, said: &Said) -> bool {
    match question {
        "text" => shared(text, said),
        "box" => boxed(said),
        "list" => list(said),
        "only" => only(said),
        "rest" => rest(said),
        "map" => map(text, said),
        "function-name" => function_name(text.trim_matches('"'), said),
        "path" => path(text, said),
        _ => return false,
    }
    true
}

/// A text that is shared as it stands.
fn shared(text: &str, said: &Said) {
    if let Some(letters) = said.made(String::from_str(said.alloc, text))
        && let Some(text) = said.made(ImmutableString::from_string(letters))
    {
        said.word(text.as_str());
    }
}

fn boxed(said: &Said) {
    if let Some(mut boxed) = said.boxed(Some(7u8))
        && let Some(copy) = said.made(boxed.clone())
    {
        said.word_if(copy == boxed, "equal");
        *boxed.get_mut() = 8;
        said.word_if(copy != boxed, "different");
        said.count("of", usize::from(*boxed.get()));
        said.count("and", usize::from(copy.into_inner()));
    }
}

fn list(said: &Said) {
    let mut items = Seq::new(said.alloc);
    say_items(&items, said);
    push_two(&mut items, said);
    say_changed(&mut items, said);
    let only = Seq::from_vec(items.into_vec()).into_only();
    said.word_if(only.is_some(), "an only one");
}

fn push_two(items: &mut Seq<u8>, said: &Said) {
    said.made(items.push(1));
    said.made(items.push(2));
}

/// Says what a list of two is, before and after it is changed, and that it has no items once it is emptied.
fn say_changed(items: &mut Seq<u8>, said: &Said) {
    say_items(items, said);
    change(items, said);
    say_items(items, said);
    if let Some(emptied) = said.made(items.emptied()) {
        say_items(&emptied, said);
    }
}

fn change(items: &mut Seq<u8>, said: &Said) {
    if let Some(item) = items.get_mut(1) {
        *item = 5;
    }
    said.word_if(items.get_mut(2).is_some(), "a third");
    if let Some(item) = items.as_mut_slice().first_mut() {
        *item = 4;
    }
}

fn say_items(items: &Seq<u8>, said: &Said) {
    said.word_if(!said.is_copied(items), "another");
    said.count("items", items.len());
    said.word_if(items.is_empty(), "none");
    for item in items.as_slice() {
        said.count("and", usize::from(*item));
    }
}

/// Lists of one, and the room of a list of two that was made for two.
fn only(said: &Said) {
    let slice = Seq::from_slice(said.alloc, &[9u8]);
    say_only("of a slice", said.made(slice), said);
    let array = Seq::from_array(said.alloc, [7u8]);
    say_only("of an array", said.made(array), said);
    if let Some(mut items) = said.made(Seq::with_capacity(said.alloc, 2)) {
        push_two(&mut items, said);
        said.count("room for", items.into_vec().capacity());
    }
}

fn say_only(word: &str, items: Option<Seq<u8>>, said: &Said) {
    if let Some(items) = items {
        said.count(word, usize::from(items.into_only().unwrap_or(0)));
    }
}

/// What is left of 1 and 2, from the front, and of nothing.
fn rest(said: &Said) {
    let mut items = Seq::new(said.alloc);
    push_two(&mut items, said);
    say_rest(items.into_rest(), said);
    let mut none: Rest<u8> = Rest::new(Vec::new(said.alloc));
    said.word_if(none.next().is_none(), "nothing at all");
}

fn say_rest(mut rest: Rest<u8>, said: &Said) {
    for _ in 0..3 {
        said.word_if(rest.is_empty(), "none left");
        said.count("next", usize::from(rest.next().unwrap_or(0)));
    }
}

/// A map of these keys to their numbers, from 1.
fn map(keys: &str, said: &Said) {
    let mut members: StringMap<u8> = StringMap::new(said.alloc);
    let mut number: u8 = 0;
    for key in keys.split(' ') {
        number = number.saturating_add(1);
        put_member(&mut members, key, number, said);
    }
    say_members(&members, said);
}

fn put_member(members: &mut StringMap<u8>, key: &str, number: u8, said: &Said) {
    if let Some(key) = said.shared(key) {
        said.made(members.insert(key, number));
    }
}

fn say_members(members: &StringMap<u8>, said: &Said) {
    for (key, number) in members.iter() {
        said.count(key.as_str(), usize::from(*number));
    }
    said.count("of", members.len());
    said.word_if(said.is_copied(members), "as its copy");
    if let Some(emptied) = said.made(members.emptied()) {
        said.count("emptied", emptied.len());
    }
}

fn function_name(text: &str, said: &Said) {
    let Some(text) = said.shared(text) else {
        return;
    };
    match FnName::new(text) {
        Some(name) => {
            said.word(name.as_str());
            said.word_if(said.is_copied(&name), "as its copy");
            said.word(name.into_name().as_str());
        }
        None => said.word("none"),
    }
}

/// A path of names, of which the first stands somewhere.
fn path(text: &str, said: &Said) {
    let mut path = Namespace::none(said.alloc);
    let mut pos = Position::new(1, 4);
    for name in text.split_whitespace() {
        push_name(&mut path.path, name, pos, said);
        pos = Position::NONE;
    }
    say_path(&path, said);
    if let [first, second] = path.path.as_slice() {
        say_names(first, second, said);
    }
}

fn push_name(names: &mut Seq<Ident>, name: &str, pos: Position, said: &Said) {
    if let Some(name) = said.shared(name) {
        said.made(names.push(Ident { name, pos }));
    }
}

fn say_path(path: &Namespace, said: &Said) {
    if let Some(text) = said.made(path.to_string(said.alloc)) {
        said.word(text.as_str());
    }
    said.word_if(said.is_copied(path), "as its copy");
    said.word_if(path.is_empty(), "empty");
    if !path.path.is_empty() {
        said.word(path.root());
        said.place("at", path.position());
    }
}

/// Says how two names compare, and the first with its copy, there and elsewhere.
fn say_names(first: &Ident, second: &Ident, said: &Said) {
    said.word(first.as_str());
    said.word_if(first.name != second.name, "different");
    said.word_if(first.name < second.name, "before");
    said.word_if(said.is_copied(&second.name), second.name.as_str());
    said.word_if(said.is_copied(first), "as its copy");
    if let Some(mut copy) = said.made(first.clone()) {
        copy.pos = Position::NONE;
        said.word_if(copy != *first, "another elsewhere");
    }
}
