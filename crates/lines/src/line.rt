// A line of input. Only its first 97 bytes are kept: neither a rule nor a letter has more than 96.
ghost use Rattle.std.specs.Prelude.{◌≡◌, ◌≤◌, length, position, IfSome};
ghost use Rattle.lines.specs.Taking.{ends_line, line_after, bytes_taken};
ghost use Rattle.short_text.specs.Texts.{text_of};

use short_text::ShortText;

pub type Line = ShortText<97>;

// Where the first line's end is; none if no line ends.
fn line_end(bytes: &[u8]) -> Option<usize>
    ensures { result ≡ position ends_line bytes.now }
{
    bytes.iter().position(|byte| *byte == b'\n')
}

// Adds bytes to the line up to a line's end, and says how many bytes that took, the end's own included; none if no line ends
// there.
pub fn take_bytes(line: &mut Line, bytes: &[u8]) -> Option<usize>
    ensures kept { text_of line.new ≡ line_after (text_of line.old) bytes.now }
    ensures taken { result ≡ bytes_taken bytes.now }
    ensures within { IfSome result (λ taken. taken ≤ length bytes.now) }
{
    let end = line_end(bytes);
    line.extend(&bytes[..end.unwrap_or(bytes.len())]);
    end.map(|at| at + 1)
}
