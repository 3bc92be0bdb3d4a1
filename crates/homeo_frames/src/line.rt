//! The lines of a stream.

ghost use Rattle.std.specs.Prelude.{◌≡◌, ◌≤◌, ◌++◌, ◌∷◌, [], length, drop, true, false};
ghost use Rattle.std.specs.List.{list_all};
ghost use Rattle.homeo_reader.specs.Lines.{is_blank, is_end, is_end_word};
ghost use Rattle.homeo_frames.specs.Frames.{IsFrame, IsOpen};
ghost use Rattle.homeo_frames.specs.LastLines.{last_line, without_last_line, EndsInEnd};

const NEWLINE: u8 = b'\n';

fn is_blank(byte: u8) -> bool
    ensures { result ≡ is_blank byte }
{
    byte == b' ' || byte == b'\t' || byte == b'\r'
}

fn are_blank(line: &[u8]) -> bool
    ensures { result ≡ list_all is_blank line.now }
{
    line.iter().all(|byte| is_blank(*byte))
}

// Whether a line begins with the letters of `end`, and has only blanks after them.
fn is_end_word(line: &[u8]) -> bool
    ensures { result ≡ is_end_word line.now }
{
    if !line.starts_with(b"end") {
        return false;
    }
    are_blank(&line[3..])
}

// Whether a line is `end`, with or without blanks before it and after it.
fn is_end(line: &[u8]) -> bool
    ensures { result ≡ is_end line.now }
{
    for (at, byte) in line.iter().enumerate() {
        if !is_blank(*byte) {
            return is_end_word(&line[at..]);
        }
    }
    false
}

// Where the bytes behind the last newline begin.
fn last_line_at(bytes: &[u8]) -> usize
    ensures within { result ≤ length bytes.now }
    ensures line { drop result bytes.now ≡ last_line bytes.now }
{
    let mut at = bytes.len();
    while at > 0 && bytes[at - 1] != NEWLINE {
        at -= 1;
    }
    at
}

/// Whether a byte ends a frame that hasn't ended: a newline, behind a line that is `end`.
pub fn ends_frame(rest: &[u8], byte: u8) -> bool
    ensures ends { result ≡ true → IsOpen rest.now → IsFrame (rest.now ++ byte ∷ []) }
    ensures in_end { result ≡ true → EndsInEnd (rest.now ++ byte ∷ []) }
    ensures goes_on { result ≡ false → IsOpen rest.now → IsOpen (rest.now ++ byte ∷ []) }
{
    if byte != NEWLINE {
        return false;
    }
    is_end(&rest[last_line_at(rest)..])
}

/// A frame that has ended, without its last line.
pub fn without_last_line(frame: &[u8]) -> &[u8]
    requires { EndsInEnd frame.now }
    ensures { result.now ≡ without_last_line frame.now }
{
    let lines = &frame[..frame.len() - 1];
    &lines[..last_line_at(lines)]
}
