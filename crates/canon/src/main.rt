// Document 01, module 8: reads a text from standard input and prints its written form, or how it is refused.
#![tactic(auto)]

ghost use Rattle.std.specs.Prelude.{◌≤◌, length};
ghost use Rattle.std.specs.Io.{ReadsAtMost, WritesAtMost};
ghost use Rattle.sdp_area.specs.Columns.{area_size};
ghost use Rattle.sdp_bound.specs.Bound.{room_of_any};
ghost use Rattle.canon.specs.Canon.{Holds, refused_line, printed};

use sdp_lines::Answer;
use sdp_put::Out;
use sdp_read::read;
use sdp_write::{fill, length};
use std::io;
use std::io::{ErrorKind, Read, Stdin, Stdout, Write};

// A call is made again while signals interrupt it, at most so many times.
const TRIES: u64 = 1000000;

// Behind a text that is too long, at most so many reads take what is left of the input.
const READS: u64 = 65536;

// One read, made again while signals interrupt it.
fn read_some(stdin: &mut Stdin, into: &mut [u8]) -> io::Result<usize>
    ensures { ReadsAtMost result into.new }
{
    for _ in 0..TRIES {
        match stdin.read(into) {
            Err(e) if e.kind() == ErrorKind::Interrupted => {}
            got => return got,
        }
    }
    stdin.read(into)
}

// One write, made again while signals interrupt it.
fn write_some(stdout: &mut Stdout, from: &[u8]) -> io::Result<usize>
    ensures { WritesAtMost result from.now }
{
    for _ in 0..TRIES {
        match stdout.write(from) {
            Err(e) if e.kind() == ErrorKind::Interrupted => {}
            got => return got,
        }
    }
    stdout.write(from)
}

// Reads, in as many pieces as it takes, until the input ends or text is full, and answers how many bytes came in.
fn read_text(stdin: &mut Stdin, text: &mut [u8]) -> io::Result<usize>
    ensures { ReadsAtMost result text.new }
{
    let mut n: usize = 0;
    // by hand: how many reads it takes shows only when they are made
    while n < text.len() {
        match read_some(stdin, &mut text[n..])? {
            0 => break,
            k => n += k,
        }
    }
    Ok(n)
}

// Writes all of text, in as many pieces as it takes. By hand: std's `write_all` gives up after so many calls as text has bytes, and 64,
// interrupted ones among them.
fn write_text(stdout: &mut Stdout, text: &[u8]) -> io::Result<()> {
    let mut n: usize = 0;
    while n < text.len() {
        let k = write_some(stdout, &text[n..])?;
        if k == 0 {
            return Err(io::Error::from(ErrorKind::WriteZero));
        }
        n += k;
    }
    Ok(())
}

// Takes what is left of the input, so that a program that pipes in a long text is not stopped.
fn read_on(stdin: &mut Stdin, into: &mut [u8]) {
    for _ in 0..READS {
        match read_some(stdin, into) {
            Ok(0) | Err(_) => return,
            Ok(_) => {}
        }
    }
}

// The line that tells a refusal.
fn refusal(out: &mut [u8], a: Answer) -> usize
    requires { 100 ≤ length out.old }
    ensures { Holds (refused_line a) out.new result }
{
    let mut out = Out { bytes: out, at: 0 };
    out.all(b"refused ");
    out.number(a.number);
    out.all(b" line ");
    out.number(a.line);
    out.all(b" field ");
    out.number(a.field);
    out.byte(10);
    out.at
}

// Puts what is to be printed for a text into out, and answers its length. In an area of full size every text that is read
// has a length, there is so much room for it, and it is written into just that many bytes.
fn canon(text: &[u8], area: &mut [u8], out: &mut [u8]) -> usize
    requires { (area_size ≤ length area.old) × (room_of_any ≤ length out.old) }
    ensures { Holds (printed text.now area.old) out.new result }
{
    let told = read(text, area);
    let a = told.answer;
    if a.number != 0 {
        return refusal(out, a);
    }
    let n = length(text, area).len as usize;
    fill(text, area, &mut out[..n]);
    n
}

// One byte more than a text may have tells that it is too long. The area has sdp_area's AREA_SIZE, and out the room that canon
// asks for.
fn main(rt: HostRuntime) -> io::Result<()> {
    let mut stdin = rt.stdin();
    let mut text = [0u8; 32769];
    let n = match read_text(&mut stdin, &mut text) {
        Ok(n) => n,
        Err(e) => return eprintln!(rt; "canon: standard input: {e}"),
    };
    let mut area = [0u8; 16938];
    let mut out = [0u8; 49152];
    let m = canon(&text[..n], &mut area, &mut out);
    if let Err(e) = write_text(&mut rt.stdout(), &out[..m]) {
        return eprintln!(rt; "canon: standard output: {e}");
    }
    if n == 32769 {
        read_on(&mut stdin, &mut text);
    }
    Ok(())
}
