// The sign bench: reads an image from standard input, resets the machine, runs it without requests, and prints one line.
#![tactic(auto)]

ghost use Rattle.std.specs.Prelude.{◌≡◌, ◌≤◌, length, IfOk};
ghost use Rattle.text.specs.Text.{written};
ghost use Rattle.signbench.specs.Bench.{benched, line_of, bench_line};

use machine::Machine;
use state::State;
use std::io;
use std::io::Read;
use text::Text;

const BUDGET: u32 = 1000000;

fn line(reply: u8, cycles: u32, s: State) -> Text
    ensures { written result ≡ line_of reply cycles s }
{
    let stop = Text::empty()
        .put_all(b"stop=")
        .put_decimal(u64::from(reply));
    let used = stop.put_all(b" cycles=").put_decimal(u64::from(cycles));
    let pc = used.put_all(b" pc=").put_hex_word(s.pc);
    let a = pc.put_all(b" a=").put_hex_byte(s.a);
    let b = a.put_all(b" b=").put_hex_byte(s.b);
    let x = b.put_all(b" x=").put_hex_word(s.x);
    let y = x.put_all(b" y=").put_hex_word(s.y);
    let sp = y.put_all(b" sp=").put_hex_word(s.sp);
    sp.put_all(b" ccr=").put_hex_byte(s.flags.ccr()).put(b'\n')
}

// An image of the wrong length is refused by the run, which leaves the machine as the reset did.
fn bench(image: &mut [u8]) -> Text
    ensures { written result ≡ bench_line (benched image.old) }
{
    let started = Machine::reset(image);
    let answer = run::run(started.machine, image, &[], &[], BUDGET);
    line(answer.reply.number(), answer.cycles, answer.machine.state)
}

// Reads until the image is full or the input ends, and says how many bytes were read. The library's `read_exact` takes a short input for
// an error, and does not say how much of it was read.
fn read_full(input: &mut impl Read, image: &mut [u8]) -> io::Result<usize>
    ensures { IfOk result (λ n. n ≤ length image.new) }
{
    let mut n = 0;
    while n < image.len() {
        let got = input.read(&mut image[n..])?;
        if got == 0 {
            break;
        }
        n += got;
    }
    Ok(n)
}

// One byte more than an image has: where that is filled too, the image is too long, and the rest need not be read.
fn main(rt: HostRuntime) -> io::Result<()> {
    let mut image = [0u8; 65537];
    let n = read_full(&mut rt.stdin(), &mut image)?;
    bench(&mut image[..n]).print(&rt)
}
