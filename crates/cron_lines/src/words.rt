ghost use Rattle.std.specs.Prelude.{◌≡◌, ◌<◌, ◌≤◌, ◌+◌, [], ◌∷◌, true, length, drop, slice_range, MatchOption};
ghost use Rattle.std.specs.List.{before_first};
ghost use Rattle.cron_lines.specs.Words.{is_blank, begins_word, words_from};

fn is_blank(byte: u8) -> bool
    ensures { result ≡ is_blank byte }
{
    byte == b' ' || byte == b'\t'
}

fn begins_word(text: &[u8], at: usize) -> bool
    requires { at < length text.now }
    ensures { result ≡ begins_word text.now at }
{
    !is_blank(text[at]) && (at == 0 || is_blank(text[at - 1]))
}

/// Where the first word begins of those from a place on, or the text's end.
fn word_start(text: &[u8], from: usize) -> usize
    requires { from ≤ length text.now }
    ensures within { result ≤ length text.now }
    ensures same { words_from text.now from ≡ words_from text.now result }
    ensures begins { result < length text.now → begins_word text.now result ≡ true }
{
    for at in from..text.len() {
        if begins_word(text, at) {
            return at;
        }
    }
    text.len()
}

/// Where the word ends that begins at a place.
fn word_end(text: &[u8], start: usize) -> usize
    requires within { start < length text.now }
    requires begins { begins_word text.now start ≡ true }
    ensures low { start < result }
    ensures within { result ≤ length text.now }
    ensures bytes { slice_range text.now start result ≡ before_first is_blank (drop start text.now) }
    ensures after { words_from text.now (start + 1) ≡ words_from text.now result }
{
    for at in start + 1..text.len() {
        if is_blank(text[at]) {
            return at;
        }
    }
    text.len()
}

/// Where the first word begins and ends, of those from a place on.
pub(crate) fn next_word(text: &[u8], from: usize) -> Option<(usize, usize)>
    requires { from ≤ length text.now }
    ensures { MatchOption result
        (words_from text.now from ≡ [])
        (λ word. (word.0 ≤ word.1) × (word.1 ≤ length text.now)
        × (words_from text.now from
        ≡ record { at = word.0; bytes = slice_range text.now word.0 word.1 }
        ∷ words_from text.now word.1)) }
{
    let start = word_start(text, from);
    if start == text.len() {
        return None;
    }
    Some((start, word_end(text, start)))
}
