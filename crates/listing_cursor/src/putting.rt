// A listed schedule written as a row of bytes.
ghost use Rattle.std.specs.Prelude.{◌≡◌, ◌+◌, ◌<◌, ◌≤◌, length};
ghost use Rattle.spec_file.specs.Over.{over};
ghost use Rattle.spec_calls.specs.Rows.{row_bytes};

use file_lines::choose;

// Writes the row of a schedule, which fails or not, to the front of the output; a row has room for so many steps, and zeros behind them.
pub fn put_row(out: &mut [u8], width: usize, steps: &[u8], fails: bool)
    requires { (length steps.now ≤ width) × (width < 256) × (width + 2 ≤ length out.old) }
    ensures { out.new ≡ over (row_bytes width steps.now fails) out.old }
{
    let n = steps.len();
    out[0] = n as u8;
    out[1] = choose(fails, 1, 0);
    out[2..n + 2].copy_from_slice(steps);
    out[n + 2..width + 2].fill(0);
}
