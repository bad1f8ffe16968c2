// The word that a line begins with, and what follows it.
ghost use Rattle.std.specs.Prelude.{◌≡◌, drop};
ghost use Rattle.console.specs.Lines.{begins_with, is_word};

// Whether a line begins with a word.
pub(crate) fn begins(line: &[u8], word: &[u8]) -> bool
    ensures { result ≡ begins_with word.now line.now }
{
    if line.len() < word.len() {
        return false;
    }
    let mut i: usize = 0;
    while i < word.len() {
        if line[i] != word[i] {
            return false;
        }
        i += 1;
    }
    true
}

// Whether it is that word.
pub(crate) fn is(line: &[u8], word: &[u8]) -> bool
    ensures { result ≡ is_word word.now line.now }
{
    if line.len() == word.len() {
        return begins(line, word);
    }
    false
}

// The line from a place on.
pub(crate) fn after(line: &[u8], at: usize) -> &[u8]
    ensures { result.now ≡ drop at line.now }
{
    let end = line.len();
    if at <= end {
        return &line[at..];
    }
    &line[end..]
}
