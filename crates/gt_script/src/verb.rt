ghost use Rattle.std.specs.Prelude.{◌≡◌};
ghost use Rattle.gt_script.specs.Texts.{verb_text, verb_of};

/// The second word of a line.
#[derive(Clone, Copy, Debug, PartialEq, Eq)]
pub(crate) enum Verb {
    Create,
    Pool,
    Delete,
    Link,
    Begin,
    Put,
    Set,
    Verify,
    Get,
    List,
    Cat,
    Commit,
    Abort,
    House,
    Step,
    Close,
    Apply,
    Trim,
    Sweep,
    Restart,
}

const VERBS: [Verb; 20] = [
    Verb::Create,
    Verb::Pool,
    Verb::Delete,
    Verb::Link,
    Verb::Begin,
    Verb::Put,
    Verb::Set,
    Verb::Verify,
    Verb::Get,
    Verb::List,
    Verb::Cat,
    Verb::Commit,
    Verb::Abort,
    Verb::House,
    Verb::Step,
    Verb::Close,
    Verb::Apply,
    Verb::Trim,
    Verb::Sweep,
    Verb::Restart,
];

impl Verb {
    fn text(self) -> &'static [u8]
        ensures { result.now ≡ verb_text self }
    {
        match self {
            Verb::Create => b"create",
            Verb::Pool => b"pool",
            Verb::Delete => b"delete",
            Verb::Link => b"link",
            Verb::Begin => b"begin",
            Verb::Put => b"put",
            Verb::Set => b"set",
            Verb::Verify => b"verify",
            Verb::Get => b"get",
            Verb::List => b"list",
            Verb::Cat => b"cat",
            Verb::Commit => b"commit",
            Verb::Abort => b"abort",
            Verb::House => b"house",
            Verb::Step => b"step",
            Verb::Close => b"close",
            Verb::Apply => b"apply",
            Verb::Trim => b"trim",
            Verb::Sweep => b"sweep",
            Verb::Restart => b"restart",
        }
    }
}

/// The verb of this text.
#[tactic(auto, unfolding(crate::specs::Texts::verb_of))]
pub(crate) fn verb_of(word: &[u8]) -> Option<Verb>
    ensures { result ≡ verb_of word.now }
{
    VERBS.iter().copied().find(|verb| verb.text() == word)
}
