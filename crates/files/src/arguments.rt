// A program's arguments.
ghost use Rattle.std.specs.Prelude.{◌≡◌};
ghost use Rattle.files.specs.Arguments.{is_help, is_option};

use text::line::is_same;

pub fn is_help(word: &[u8]) -> bool
    ensures { result ≡ is_help word.now }
{
    is_same(word, b"-h") || is_same(word, b"--help")
}

// An empty word is none that could be a path.
#[tactic(auto, using(crate::proofs::Words::option_none, crate::proofs::Words::option_at))]
pub fn is_option(word: &[u8]) -> bool
    ensures { result ≡ is_option word.now }
{
    match word {
        [] => true,
        [first, ..] => *first == b'-',
    }
}
