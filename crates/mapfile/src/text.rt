ghost use Rattle.std.specs.Prelude.{◌≡◌, ◌+◌, ◌-◌, ◌*◌, ◌^◌, ◌<◌, ◌≤◌, length, All, IfOk, fold};
ghost use Rattle.std.specs.Result.{result_map_both};
ghost use Rattle.cursor.specs.Rests.{rest_of};
ghost use Rattle.mapfile.specs.GridFiles.{after_text, number_line, size_line};
ghost use Rattle.mapfile.specs.GridLayout.{Digit};
ghost use Rattle.mapfile.specs.GridReads.{sized};
ghost use Rattle.mapfile.specs.Leading.{common_len, digit_count};

use crate::fault::Fault;
use cursor::Cursor;
use maps::MapRefusal;

// What is left behind `text`, which is due here.
#[tactic(auto, using(crate::proofs::TextSteps::common_len_most, crate::proofs::TextSteps::text_departs, crate::proofs::TextSteps::text_read))]
pub fn after_text<'a>(rest: Cursor<'a>, text: &[u8]) -> Result<Cursor<'a>, Fault>
    ensures { after_text text.now rest.entry.at rest.entry.bytes.now ≡ result_map_both rest_of (λ f. f) result }
{
    let same = common_len(text, rest.bytes);
    if same < text.len() {
        return Err(Fault::new(MapRefusal::Headless, rest.at + same));
    }
    Ok(rest.behind(same))
}

// A number of one to three digits that is 1 to 32, and what is left behind its line.
pub fn size_line(rest: Cursor<'_>) -> Result<(usize, Cursor<'_>), Fault>
    ensures gauge { IfOk result (λ n. n.0 ≤ 32) }
    ensures is_the_reading { size_line rest.entry.at rest.entry.bytes.now ≡ result_map_both sized (λ f. f) result }
{
    let (size, behind) = number_line(rest)?;
    if !(1..=32).contains(&size) {
        return Err(Fault::new(MapRefusal::Gauge, rest.at));
    }
    Ok((size, behind))
}

fn number_line(rest: Cursor<'_>) -> Result<(usize, Cursor<'_>), Fault>
    ensures { number_line rest.entry.at rest.entry.bytes.now ≡ result_map_both sized (λ f. f) result }
{
    let digits = digit_count(rest.bytes);
    if digits == 0 || rest.bytes.get(digits) != Some(&b'\n') {
        return Err(Fault::new(MapRefusal::Headless, rest.at + digits));
    }
    Ok((decimal(&rest.bytes[..digits]), rest.behind(digits + 1)))
}

// How many bytes are the same from the front on.
fn common_len(text: &[u8], bytes: &[u8]) -> usize
    ensures { result ≡ common_len text.now bytes.now }
{
    text.iter().zip(bytes).take_while(|(t, b)| t == b).count()
}

// How many digits the bytes begin with, of three at most.
fn digit_count(bytes: &[u8]) -> usize
    ensures { result ≡ digit_count 3 bytes.now }
{
    bytes
        .iter()
        .take(3)
        .take_while(|b| b.is_ascii_digit())
        .count()
}

// The number that some digits come to. A loop: of a fold's closure it was not proved that its product fits.
fn decimal(digits: &[u8]) -> usize
    requires few { length digits.now ≤ 3 }
    requires digits { All Digit digits.now }
    ensures { result ≡ fold (λ v b. v * 10 + (b - 48)) 0 digits.now }
{
    let mut value = 0;
    for digit in digits {
        value = value * 10 + usize::from(digit - b'0');
    }
    value
}
