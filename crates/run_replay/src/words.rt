//! The words of the steps.

ghost use Rattle.std.specs.Prelude.{◌≡◌, option_map};
ghost use Rattle.std.specs.Str.{bytes_eq};
ghost use Rattle.spec_run_text.specs.Reading.{action};
ghost use Rattle.run_replay.specs.Actions.{action_of};

/// What a word names.
#[derive(Clone, Copy)]
pub enum Action {
    Build,
    Reduce,
    Part,
    Fresh,
    Split,
    Copy,
    Make,
    Pass,
    Hear,
    Say,
    Take,
    Fail,
    Mark,
    Next,
    Put,
    Fetch,
    Miss,
}

fn is(word: &[u8], name: &[u8]) -> bool
    ensures { result ≡ bytes_eq word.now name.now }
{
    word == name
}

/// The action that the word names.
pub fn action_named(word: &[u8]) -> Option<Action>
    ensures { option_map action_of result ≡ action word.now }
{
    if is(word, b"build") {
        Some(Action::Build)
    } else if is(word, b"reduce") {
        Some(Action::Reduce)
    } else if is(word, b"part") {
        Some(Action::Part)
    } else if is(word, b"fresh") {
        Some(Action::Fresh)
    } else if is(word, b"split") {
        Some(Action::Split)
    } else if is(word, b"copy") {
        Some(Action::Copy)
    } else if is(word, b"make") {
        Some(Action::Make)
    } else if is(word, b"pass") {
        Some(Action::Pass)
    } else if is(word, b"hear") {
        Some(Action::Hear)
    } else if is(word, b"say") {
        Some(Action::Say)
    } else if is(word, b"take") {
        Some(Action::Take)
    } else if is(word, b"fail") {
        Some(Action::Fail)
    } else if is(word, b"mark") {
        Some(Action::Mark)
    } else if is(word, b"next") {
        Some(Action::Next)
    } else if is(word, b"insert") {
        Some(Action::Put)
    } else if is(word, b"get") {
        Some(Action::Fetch)
    } else if is(word, b"miss") {
        Some(Action::Miss)
    } else {
        None
    }
}
