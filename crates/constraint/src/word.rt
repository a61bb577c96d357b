// Words: how far a text goes along with a fixed word, and whether it begins with all of it.
ghost use Rattle.std.specs.Prelude.{length};
ghost use Rattle.basis.specs.Tests.{Decides};
ghost use Rattle.constraint.specs.Reader.{Agrees, Begins, Is};

// The length of the longest beginning that a text and a word have in common.
pub fn agreed(rest: &[u8], word: &[u8]) -> usize
    ensures { Agrees rest.now word.now result }
{
    rest.iter().zip(word).take_while(|(a, b)| a == b).count()
}

// Whether a text begins with a word.
pub fn begins(rest: &[u8], word: &[u8]) -> bool
    ensures { Decides result (Begins (Is word.now) rest.now (length word.now)) }
{
    agreed(rest, word) == word.len()
}
