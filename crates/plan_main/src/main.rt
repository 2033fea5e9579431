// The plan program: standard input to standard output.
#![tactic(auto)]

ghost use Rattle.std.specs.Prelude.{◌≡◌, ◌≤◌, length, take};
ghost use Rattle.transfers.specs.Plan.{most_input};

use std::io::{self, Read};

// Reads as many bytes of standard input as can change the text, and no more: `printed_by_front` says that more cannot. A read that fails ends the input.
fn read(rt: &impl Input, input: &mut [u8]) -> usize
    requires { length input.old ≡ most_input }
    ensures { (result ≤ length input.new) × (result ≡ length (take result input.new)) }
{
    let mut stdin = rt.reader();
    let mut done = 0;
    while done < input.len() {
        let Ok(n) = stdin.read(&mut input[done..]) else {
            break;
        };
        if n == 0 {
            break;
        }
        done += n;
    }
    done
}

fn main(rt: HostRuntime) -> io::Result<()> {
    let mut input = [0u8; plan::MOST_INPUT];
    let n = read(&rt, &mut input);
    let mut text = [0u8; plan::PLAN_TEXT];
    let Ok(long) = plan::plan(&input[..n], &mut text) else {
        return Ok(());
    };
    rt.write_all(&text[..long])
}
