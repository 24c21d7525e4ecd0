//! The first word of a line, which says what the line is.
ghost use Rattle.std.specs.Prelude.{◌≡◌};
ghost use Rattle.device_script.specs.Keywords.{keywords, keyword_of, look_up, of_length};

/// What a line is.
#[derive(Clone, Copy)]
pub enum Keyword {
    Scale,
    Image,
    Pre,
    Boot,
    Submit,
    Ready,
    Abort,
    Success,
    State,
    Module,
    File,
    Text,
    Remove,
    Seal,
    Done,
    /// A word of the format whose lines aren't read yet.
    Later,
}

/// What a line with this first word is, or None if no line begins with it. The word is compared with those of its
/// length.
pub fn keyword_of(word: &[u8]) -> Option<Keyword>
    ensures { result ≡ keyword_of word.now }
{
    match word.len() {
        3 => of_three(word),
        4 => of_four(word),
        5 => of_five(word),
        6 => of_six(word),
        7 => of_seven(word),
        8 => of_eight(word),
        _ => None,
    }
}

#[tactic(auto, unfolding(crate::specs::Keywords::keywords))]
fn of_eight(word: &[u8]) -> Option<Keyword>
    ensures { result ≡ look_up (of_length 8 keywords) word.now }
{
    let Some(word) = word.as_array::<8>() else {
        return None;
    };
    if word == b"observer" {
        return Some(Keyword::Later);
    }
    None
}

#[tactic(auto, unfolding(crate::specs::Keywords::keywords))]
fn of_seven(word: &[u8]) -> Option<Keyword>
    ensures { result ≡ look_up (of_length 7 keywords) word.now }
{
    let Some(word) = word.as_array::<7>() else {
        return None;
    };
    if word == b"success" {
        return Some(Keyword::Success);
    }
    if word == b"nomount" {
        return Some(Keyword::Later);
    }
    None
}

#[tactic(auto, unfolding(crate::specs::Keywords::keywords))]
fn of_six(word: &[u8]) -> Option<Keyword>
    ensures { result ≡ look_up (of_length 6 keywords) word.now }
{
    let Some(word) = word.as_array::<6>() else {
        return None;
    };
    if word == b"submit" {
        return Some(Keyword::Submit);
    }
    if word == b"revert" {
        return Some(Keyword::Later);
    }
    if word == b"commit" {
        return Some(Keyword::Later);
    }
    if word == b"report" {
        return Some(Keyword::Later);
    }
    if word == b"module" {
        return Some(Keyword::Module);
    }
    if word == b"remove" {
        return Some(Keyword::Remove);
    }
    None
}

#[tactic(auto, unfolding(crate::specs::Keywords::keywords))]
fn of_five(word: &[u8]) -> Option<Keyword>
    ensures { result ≡ look_up (of_length 5 keywords) word.now }
{
    let Some(word) = word.as_array::<5>() else {
        return None;
    };
    if word == b"ready" {
        return Some(Keyword::Ready);
    }
    if word == b"abort" {
        return Some(Keyword::Abort);
    }
    if word == b"state" {
        return Some(Keyword::State);
    }
    if word == b"group" {
        return Some(Keyword::Later);
    }
    if word == b"watch" {
        return Some(Keyword::Later);
    }
    if word == b"scale" {
        return Some(Keyword::Scale);
    }
    if word == b"image" {
        return Some(Keyword::Image);
    }
    if word == b"mount" {
        return Some(Keyword::Later);
    }
    None
}

#[tactic(auto, unfolding(crate::specs::Keywords::keywords))]
fn of_four(word: &[u8]) -> Option<Keyword>
    ensures { result ≡ look_up (of_length 4 keywords) word.now }
{
    let Some(word) = word.as_array::<4>() else {
        return None;
    };
    if word == b"drop" {
        return Some(Keyword::Later);
    }
    if word == b"boot" {
        return Some(Keyword::Boot);
    }
    if word == b"lane" {
        return Some(Keyword::Later);
    }
    if word == b"then" {
        return Some(Keyword::Later);
    }
    if word == b"file" {
        return Some(Keyword::File);
    }
    if word == b"text" {
        return Some(Keyword::Text);
    }
    if word == b"seal" {
        return Some(Keyword::Seal);
    }
    if word == b"done" {
        return Some(Keyword::Done);
    }
    None
}

#[tactic(auto, unfolding(crate::specs::Keywords::keywords))]
fn of_three(word: &[u8]) -> Option<Keyword>
    ensures { result ≡ look_up (of_length 3 keywords) word.now }
{
    let Some(word) = word.as_array::<3>() else {
        return None;
    };
    if word == b"put" {
        return Some(Keyword::Later);
    }
    if word == b"get" {
        return Some(Keyword::Later);
    }
    if word == b"pre" {
        return Some(Keyword::Pre);
    }
    if word == b"cut" {
        return Some(Keyword::Later);
    }
    if word == b"end" {
        return Some(Keyword::Later);
    }
    None
}
