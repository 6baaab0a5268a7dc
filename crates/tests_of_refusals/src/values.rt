//! Texts, lists, maps, values, pointers, names, operators and scopes.

use crate::tried::Tried;
use rhai_base::{
    Boxed, Dynamic, FnName, FnPtr, Ident, ImmutableString, Namespace, OutOfMemory, Position,
    RangeCase, Scope, Seq, StringMap, Token, builtin_binary_op,
};

/// The calls.
pub const CALLS: &str =
    "ImmutableString::new ImmutableString::from_string Boxed::new Boxed::clone Seq::push Seq::from_slice \
    Seq::from_array Seq::with_capacity Seq::append Seq::emptied Seq::clone StringMap::insert StringMap::emptied StringMap::clone \
    Dynamic::clone Dynamic::text_of Dynamic::push_text Dynamic::push_written FnPtr::add_curry FnPtr::clone FnName::clone \
    Ident::clone Namespace::clone Namespace::to_string RangeCase::clone builtin_binary_op Scope::push Scope::push_constant";

/// A value with parts.
const VALUE: &str = "[1, \"abc\", 'c', #{\"a\": [], \"b\": Fn(f)}, 1..2, ()]";

pub fn make(name: &str, tried: &Tried) -> bool {
    of_texts(name, tried) || of_lists(name, tried) || of_maps(name, tried) || of_others(name, tried)
}

// ---- texts, boxes

fn of_texts(name: &str, tried: &Tried) -> bool {
    match name {
        "ImmutableString::new" => say_text(
            tried.answer(ImmutableString::new(tried.said.alloc, "abc")),
            tried,
        ),
        "ImmutableString::from_string" => from_string(tried),
        "Boxed::new" => say_boxed(tried.answer(Boxed::new(tried.said.alloc, 7u8)), tried),
        "Boxed::clone" => boxed_clone(tried),
        _ => return false,
    }
    true
}

fn say_text(text: Option<ImmutableString>, tried: &Tried) {
    if let Some(text) = text {
        tried.said.word(text.as_str());
    }
}

fn from_string(tried: &Tried) {
    if let Some(letters) = tried.said.made(String::from_str(tried.said.alloc, "abc")) {
        say_text(tried.answer(ImmutableString::from_string(letters)), tried);
    }
}

fn say_boxed(boxed: Option<Boxed<u8>>, tried: &Tried) {
    if let Some(boxed) = boxed {
        tried.said.count("of", usize::from(*boxed.get()));
    }
}

fn boxed_clone(tried: &Tried) {
    if let Some(boxed) = tried.said.boxed(Some(7u8)) {
        say_boxed(tried.answer(boxed.clone()), tried);
    }
}

// ---- lists

fn of_lists(name: &str, tried: &Tried) -> bool {
    let alloc = tried.said.alloc;
    match name {
        "Seq::push" => push(tried),
        "Seq::append" => append(tried),
        "Seq::from_slice" => say_list(tried.answer(Seq::from_slice(alloc, &[1u8, 2])), tried),
        "Seq::from_array" => say_list(tried.answer(Seq::from_array(alloc, [1u8, 2])), tried),
        "Seq::with_capacity" => say_list(tried.answer(Seq::with_capacity(alloc, 9)), tried),
        "Seq::emptied" => say_list(tried.answer(numbers(tried).emptied()), tried),
        "Seq::clone" => say_list(tried.answer(numbers(tried).clone()), tried),
        _ => return false,
    }
    true
}

fn say_list(items: Option<Seq<u8>>, tried: &Tried) {
    if let Some(items) = items {
        tried.said.count("items", items.len());
        for item in items.as_slice() {
            tried.said.count("and", usize::from(*item));
        }
    }
}

fn numbers(tried: &Tried) -> Seq<u8> {
    tried
        .said
        .made(Seq::from_slice(tried.said.alloc, &[1u8, 2, 3]))
        .unwrap_or(Seq::new(tried.said.alloc))
}

/// As many as make the list grow more than once.
fn push(tried: &Tried) {
    let mut items = Seq::new(tried.said.alloc);
    for item in 0..40u8 {
        if tried.is_refused(&items.push(item)) {
            tried.want(items.len() == usize::from(item), "changed");
            tried.said.made(items.push(item));
        }
    }
    say_list(Some(items), tried);
}

fn append(tried: &Tried) {
    let mut items = numbers(tried);
    if tried.is_refused(&items.append(numbers(tried).into_vec())) {
        tried.want(items.len() == 3, "changed");
        tried.said.made(items.append(numbers(tried).into_vec()));
    }
    say_list(Some(items), tried);
}

// ---- maps

fn of_maps(name: &str, tried: &Tried) -> bool {
    match name {
        "StringMap::insert" => insert(tried),
        "StringMap::emptied" => say_map(tried.answer(members(tried).emptied()), tried),
        "StringMap::clone" => say_map(tried.answer(members(tried).clone()), tried),
        _ => return false,
    }
    true
}

fn say_map(members: Option<StringMap<u8>>, tried: &Tried) {
    if let Some(members) = members {
        for (key, number) in members.iter() {
            tried.said.count(key.as_str(), usize::from(*number));
        }
        tried.said.count("of", members.len());
    }
}

const KEYS: &str = "a b c d e f g h i j k l m n o p";

fn members(tried: &Tried) -> StringMap<u8> {
    let mut members = StringMap::new(tried.said.alloc);
    for key in KEYS.split(' ') {
        if let Some(key) = tried.said.shared(key) {
            tried.said.made(members.insert(key, 1u8));
        }
    }
    members
}

fn insert(tried: &Tried) {
    let mut members: StringMap<u8> = StringMap::new(tried.said.alloc);
    for key in KEYS.split(' ') {
        insert_key(&mut members, key, tried);
    }
    say_map(Some(members), tried);
}

fn insert_key(members: &mut StringMap<u8>, key: &str, tried: &Tried) {
    let before = members.len();
    if let Some(shared) = tried.said.shared(key)
        && tried.is_refused(&members.insert(shared, 1u8))
    {
        tried.want(members.len() == before, "changed");
        if let Some(shared) = tried.said.shared(key) {
            tried.said.made(members.insert(shared, 1u8));
        }
    }
}

// ---- values

fn of_others(name: &str, tried: &Tried) -> bool {
    match name {
        "Scope::push" | "Scope::push_constant" => scope(name, tried),
        "RangeCase::clone" => range(tried),
        "FnName::clone" => function_name(tried),
        "Ident::clone" | "Namespace::clone" | "Namespace::to_string" => path(name, tried),
        "FnPtr::add_curry" | "FnPtr::clone" => pointer(name, tried),
        _ => return of_values(name, tried),
    }
    true
}

fn of_values(name: &str, tried: &Tried) -> bool {
    match name {
        "Dynamic::clone" => say_value(tried.answer(value(tried).clone()), tried),
        "Dynamic::text_of" => say_text(tried.answer(value(tried).text_of(tried.said.alloc)), tried),
        "Dynamic::push_text" => push_text(tried),
        "Dynamic::push_written" => push_written(tried),
        "builtin_binary_op" => operator(tried),
        _ => return false,
    }
    true
}

fn value(tried: &Tried) -> Dynamic {
    tried.said.value_of(VALUE).unwrap_or(Dynamic::Unit)
}

fn say_value(value: Option<Dynamic>, tried: &Tried) {
    if let Some(value) = value {
        tried.said.inner(&value);
    }
}

fn say_letters(letters: Option<String>, tried: &Tried) {
    if let Some(letters) = letters {
        tried.said.word(letters.as_str());
    }
}

fn push_text(tried: &Tried) {
    let mut text = String::new(tried.said.alloc);
    let value = value(tried);
    if tried.is_refused(&value.push_text(&mut text)) {
        tried.want(text.is_empty(), "changed");
        tried.said.made(value.push_text(&mut text));
    }
    tried.said.word(text.as_str());
}

fn push_written(tried: &Tried) {
    let mut text = String::new(tried.said.alloc);
    let value = value(tried);
    if tried.is_refused(&value.push_written(&mut text)) {
        tried.want(text.is_empty(), "changed");
        tried.said.made(value.push_written(&mut text));
    }
    tried.said.word(text.as_str());
}

fn operator(tried: &Tried) {
    let alloc = tried.said.alloc;
    if let (Some(x), Some(y)) = (tried.said.value_of("\"abc\""), tried.said.value_of("'d'"))
        && let Some(Some(Ok(value))) = tried.answer(builtin_binary_op(
            alloc,
            &Token::Plus,
            &x,
            &y,
        ))
    {
        tried.said.inner(&value);
    }
}

// ---- pointers, names, ranges

fn pointer(name: &str, tried: &Tried) {
    if let Some(letters) = tried.said.shared("f")
        && let Some(mut pointer) = FnPtr::new(tried.said.alloc, letters)
    {
        curry(&mut pointer, tried);
        if name == "FnPtr::clone" {
            let copy = tried.answer(pointer.clone());
            tried.want(copy.is_none() || copy == Some(pointer), "another pointer");
        }
        tried.said.word("done");
    }
}

/// As many values as make their list grow more than once.
fn curry(pointer: &mut FnPtr, tried: &Tried) {
    for count in 0..9usize {
        if tried.is_refused(&pointer.add_curry(Dynamic::Int(1))) {
            tried.want(pointer.curry().len() == count, "changed");
            tried.said.made(pointer.add_curry(Dynamic::Int(1)));
        }
    }
    tried.said.count("values", pointer.curry().len());
}

fn function_name(tried: &Tried) {
    if let Some(letters) = tried.said.shared("abc")
        && let Some(name) = FnName::new(letters)
        && let Some(copy) = tried.answer(name.clone())
    {
        tried.said.word(copy.as_str());
    }
}

fn path(name: &str, tried: &Tried) {
    let mut path = Namespace::none(tried.said.alloc);
    for word in ["a", "b"] {
        if let Some(letters) = tried.said.shared(word) {
            tried.said.made(path.path.push(ident(letters)));
        }
    }
    match name {
        "Namespace::clone" => tried.done(tried.answer(path.clone())),
        "Namespace::to_string" => say_letters(
            tried.answer(path.to_string(tried.said.alloc)),
            tried,
        ),
        _ => {
            for ident in path.path.as_slice() {
                tried.done(tried.answer(ident.clone()));
            }
        }
    }
}

fn ident(name: ImmutableString) -> Ident {
    Ident {
        name,
        pos: Position::NONE,
    }
}

fn range(tried: &Tried) {
    if let Some(copy) = tried.answer(RangeCase::from(3..=5).clone()) {
        tried.said.display(&copy.checked_len().unwrap_or(0));
    }
}

// ---- scopes

fn scope(name: &str, tried: &Tried) {
    let mut scope = Scope::new(tried.said.alloc);
    for count in 0..9usize {
        if tried.is_refused(&push_name(name, &mut scope, tried)) && tried.said.is_whole() {
            tried.want(scope.len() == count, "changed");
            tried.said.made(push_name(name, &mut scope, tried));
        }
    }
    tried.said.count("names", scope.len());
}

/// A name that is not made is not pushed.
fn push_name(call: &str, scope: &mut Scope, tried: &Tried) -> Result<(), OutOfMemory> {
    let Some(name) = tried.said.shared("x") else {
        return Ok(());
    };
    match call {
        "Scope::push" => scope.push(name, Dynamic::Int(1)),
        _ => scope.push_constant(name, Dynamic::Int(1)),
    }
}
