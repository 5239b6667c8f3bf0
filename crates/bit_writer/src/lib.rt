// Fields of bits written into bytes, most significant bit first.
#![tactic(auto)]

ghost use Rattle.std.specs.Prelude.{◌≡◌, ◌+◌, ◌*◌, ◌%◌, ◌^◌, ◌≤◌, ◌<◌, length};
ghost use Rattle.bits.specs.Put.{put};

use bits::MAX_FIELD_WIDTH;

// A field within one byte; the rest of the byte becomes zero.
fn write_part(out: &mut [u8], at: usize, width: usize, value: u32)
    requires { (0 < width) × (at % 8 + width ≤ 8) × (at < 8 * length out.old) }
    ensures { out.new ≡ put out.old at width value }
{
    let room = 8 - at % 8;
    let x = out[at / 8];
    let kept = ((x as u32) >> room) << width;
    let y = (kept + bits::lower(value, width)) << (room - width);
    out[at / 8] = y as u8;
}

// The last bits of a field, at the front of a byte, which need not be read; the rest of the byte becomes zero.
fn write_end(out: &mut [u8], byte: usize, width: usize, value: u32)
    requires { (0 < width) × (width ≤ 8) × (byte < length out.old) }
    ensures { out.new ≡ put out.old (8 * byte) width value }
{
    let y = bits::lower(value, width) << (8 - width);
    out[byte] = y as u8;
}

// A field over any number of bytes, a part for each. The parts' widths differ, so `done` is no index that a range could count.
fn write_parts(out: &mut [u8], at: usize, width: usize, value: u32)
    requires { (at < 2 ^ 32) × (width ≤ MAX_FIELD_WIDTH) × (at + width ≤ 8 * length out.old) }
    ensures { out.new ≡ put out.old at width value }
{
    let mut done: usize = 0;
    while done < width {
        let p = at + done;
        let left = width - done;
        let part = left.min(8 - p % 8);
        write_part(out, p, part, value >> (left - part));
        done += part;
    }
}

// The `width` bits of `value`, from bit `at`; the rest of the last byte becomes zero. Most fields lie in one byte or in two.
pub fn write_field(out: &mut [u8], at: usize, width: usize, value: u32)
    requires { (at < 2 ^ 32) × (width ≤ MAX_FIELD_WIDTH) × (at + width ≤ 8 * length out.old) }
    ensures { out.new ≡ put out.old at width value }
{
    let room = 8 - at % 8;
    if width == 0 {
        return;
    }
    if width <= room {
        write_part(out, at, width, value);
    } else if width <= room + 8 {
        let left = width - room;
        write_part(out, at, room, value >> left);
        write_end(out, at / 8 + 1, left, value);
    } else {
        write_parts(out, at, width, value);
    }
}
