// Lines of a text, each ended by a line feed. Each function takes the text from the start of a line on.
ghost use Rattle.std.specs.Prelude.{◌≡◌, ◌+◌, ◌*◌, ◌/◌, ◌≤◌, ◌<◌, ltb, leb, length, position, ◌==◌};
ghost use Rattle.rules.specs.declared.Refusal.TheVariants.{BadLength, MalformedFrame};
ghost use Rattle.rules.specs.Numbers.{word_limit, choose};
ghost use Rattle.rules.specs.Text.{lines_of};
ghost use Rattle.program_text.specs.TextLines.{WholeWords, FindsWords, ReadsWords, ReadsLine, ReadsFrame};

use hexadecimal::word_of;
use program::binary_program::{FRAME_LIMIT, WORD_LIMIT, frame_length};
use rules::Refusal;

// Where the first line feed stands.
pub(crate) fn line_feed(text: &[u8]) -> Option<usize>
    ensures { result ≡ position (λ c. c == 10) text.now }
{
    text.iter().position(|c| *c == b'\n')
}

// How many words the line of a frame would have: a line feed stands 16, 32, 48 or 64 characters after its start.
fn frame_words(text: &[u8]) -> Option<usize>
    ensures { FindsWords text.now result }
{
    for words in 1..5 {
        if *text.get(16 * words)? == b'\n' {
            return Some(words);
        }
    }
    None
}

// Are there more lines than `limit`?
fn more_lines(text: &[u8], limit: usize) -> bool
    ensures { result ≡ ltb limit (length (lines_of text.now)) }
{
    let mut rest = text;
    for _ in 0..limit {
        let Some(end) = line_feed(rest) else {
            return false;
        };
        rest = &rest[end + 1..];
    }
    !rest.is_empty()
}

// The refusal of a program whose line of a number is malformed, where so many frames come before these lines: that there are too many
// lines goes before.
pub(crate) fn malformed(text: &[u8], frames: usize, number: u64) -> Refusal
    requires { frames ≤ 512 }
    ensures { result
        ≡ choose (leb (frames + length (lines_of text.now)) 512) (MalformedFrame number) BadLength }
{
    if more_lines(text, FRAME_LIMIT - frames) {
        return Refusal::BadLength;
    }
    Refusal::MalformedFrame(number)
}

// Reads words of 16 digits each into the buffer, behind those in use; none where some character is no digit.
fn read_words(digits: &[u8], used: usize, words: &mut [u64; WORD_LIMIT]) -> Option<()>
    requires { (used + length digits.now / 16 ≤ word_limit) × (length words.old ≡ word_limit) }
    ensures { ReadsWords digits.now (length digits.now / 16) used words.old words.new result }
{
    let (chunks, _) = digits.as_chunks();
    for (i, chunk) in chunks.iter().enumerate() {
        words[used + i] = word_of(chunk)?;
    }
    Some(())
}

// Reads a line of one to four words.
fn read_line(line: &[u8], used: usize, words: &mut [u64; WORD_LIMIT]) -> Option<usize>
    requires whole_words { WholeWords (length line.now) }
    requires used_bound { (used + 4 ≤ word_limit) × (length words.old ≡ word_limit) }
    ensures { ReadsLine line.now used words.old words.new result }
{
    read_words(line, used, words)?;
    let count = line.len() / 16;
    if frame_length(words[used]) != count {
        return None;
    }
    Some(count)
}

// Reads the first line, if it is ended and a frame's: how many words it has. Its digits are read once: that no line feed stands among them
// need not be looked for.
pub(crate) fn read_frame(text: &[u8], used: usize, words: &mut [u64; WORD_LIMIT]) -> Option<usize>
    requires some_text { 0 < length text.now }
    requires used_bound { (used + 4 ≤ word_limit) × (length words.old ≡ word_limit) }
    ensures { ReadsFrame text.now used words.old words.new result }
{
    let count = frame_words(text)?;
    read_line(&text[..16 * count], used, words)
}
