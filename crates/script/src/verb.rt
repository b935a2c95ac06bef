//! The words that a line or a call may begin with.
ghost use Rattle.std.specs.Prelude.{◌≡◌, nat_eq};
ghost use Rattle.std.specs.Cmp.Lexicographic.{pointwise};
ghost use Rattle.script.specs.Reading.{verb_text, call_verb_text, verb_of, call_verb_of};

/// What a line asks for.
#[derive(Clone, Copy, Debug, PartialEq, Eq)]
pub(crate) enum Verb {
    Call,
    Issue,
    Retry,
    Deliver,
    Batch,
    Take,
    Settle,
    Remind,
    Tick,
    Fuse,
    Stop,
    Restart,
    Walk,
    Bulk,
    Rmdir,
    Feed,
    Promote,
}

const VERBS: [Verb; 17] = [
    Verb::Call,
    Verb::Issue,
    Verb::Retry,
    Verb::Deliver,
    Verb::Batch,
    Verb::Take,
    Verb::Settle,
    Verb::Remind,
    Verb::Tick,
    Verb::Fuse,
    Verb::Stop,
    Verb::Restart,
    Verb::Walk,
    Verb::Bulk,
    Verb::Rmdir,
    Verb::Feed,
    Verb::Promote,
];

impl Verb {
    fn text(self) -> &'static [u8]
        ensures { result.now ≡ verb_text self }
    {
        match self {
            Verb::Call => b"call",
            Verb::Issue => b"issue",
            Verb::Retry => b"retry",
            Verb::Deliver => b"deliver",
            Verb::Batch => b"batch",
            Verb::Take => b"take",
            Verb::Settle => b"settle",
            Verb::Remind => b"remind",
            Verb::Tick => b"tick",
            Verb::Fuse => b"fuse",
            Verb::Stop => b"stop",
            Verb::Restart => b"restart",
            Verb::Walk => b"walk",
            Verb::Bulk => b"bulk",
            Verb::Rmdir => b"rmdir",
            Verb::Feed => b"feed",
            Verb::Promote => b"promote",
        }
    }
}

/// The verb that a word is.
#[tactic(auto, unfolding(crate::specs::Reading::verb_of))]
pub(crate) fn verb_of(word: &[u8]) -> Option<Verb>
    ensures { result ≡ verb_of word.now }
{
    VERBS
        .iter()
        .copied()
        .find(|verb| are_same(verb.text(), word))
}

/// What a call asks for.
#[derive(Clone, Copy, Debug, PartialEq, Eq)]
pub(crate) enum CallVerb {
    Create,
    Mkdir,
    Remove,
    Lookup,
    Setattr,
    Scan,
}

const CALL_VERBS: [CallVerb; 6] = [
    CallVerb::Create,
    CallVerb::Mkdir,
    CallVerb::Remove,
    CallVerb::Lookup,
    CallVerb::Setattr,
    CallVerb::Scan,
];

impl CallVerb {
    fn text(self) -> &'static [u8]
        ensures { result.now ≡ call_verb_text self }
    {
        match self {
            CallVerb::Create => b"create",
            CallVerb::Mkdir => b"mkdir",
            CallVerb::Remove => b"remove",
            CallVerb::Lookup => b"lookup",
            CallVerb::Setattr => b"setattr",
            CallVerb::Scan => b"scan",
        }
    }
}

/// The call's verb that a word is.
#[tactic(auto, unfolding(crate::specs::Reading::call_verb_of))]
pub(crate) fn call_verb_of(word: &[u8]) -> Option<CallVerb>
    ensures { result ≡ call_verb_of word.now }
{
    CALL_VERBS
        .iter()
        .copied()
        .find(|verb| are_same(verb.text(), word))
}

/// Whether two words are one. They are short and mostly differ in length or soon, so they are compared byte by byte.
fn are_same(a: &[u8], b: &[u8]) -> bool
    ensures { result ≡ pointwise nat_eq a.now b.now }
{
    if a.len() != b.len() {
        return false;
    }
    for at in 0..a.len() {
        if a[at] != b[at] {
            return false;
        }
    }
    true
}
