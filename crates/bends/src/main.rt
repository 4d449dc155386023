// 01's program: reads chart.txt and a log from standard input; prints each entry's answer and the book, or a refusal.
#![tactic(auto)]

mod input;

use input::{Log, Text};
use std::io;
use std::io::Write;

fn main(rt: HostRuntime) -> io::Result<()> {
    let mut chart = Text::new();
    let mut log = Log::default();
    input::read_chart(&rt, &mut chart);
    input::read_log(&mut rt.stdin(), &mut log);
    // the most that is printed is known, and `program` lays it into lent room
    let mut out = [0u8; 65536];
    let n = program::print(&chart, log.size, &log.kept, &mut out);
    rt.stdout().write_all(&out[..n])
}
