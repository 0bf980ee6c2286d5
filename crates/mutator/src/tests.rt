//! Each line of the table of changes, by words that reach it.

use super::*;
use generator::assert_drawn;
use loda_syntax::{Program, parse, print};
use std::alloc::Global;
use std::process::Abort;
use word_stream::{Draws, Listed};

const NAMES: [u32; 3] = [45, 290, 16_742];

fn program(rt: &impl Abort, alloc: Global, text: &[u8]) -> Program {
    parse(alloc, text).ok().expect(rt, "a program")
}

fn unnamed(rt: &impl Abort, alloc: Global, given: &[u8], words: &[u32], want: &[u8]) {
    let given = program(rt, alloc, given);
    assert_drawn!(
        rt,
        alloc,
        words,
        draws,
        mutate(alloc, &given, &mut draws, &[]),
        want
    );
}

fn named(rt: &impl Abort, alloc: Global, given: &[u8], words: &[u32], want: &[u8]) {
    let given = program(rt, alloc, given);
    assert_drawn!(
        rt,
        alloc,
        words,
        draws,
        mutate(alloc, &given, &mut draws, &NAMES),
        want
    );
}

#[test]
fn mutated_square(rt: HostRuntime) {
    let want = b"mul $0,$0\nadd $0,1\n";
    unnamed(
        &rt,
        rt.alloc(),
        b"mul $0,$0\n",
        &[0, 1, 1, 1, 0, 4, 3],
        want,
    );
}

#[test]
fn drawn_anew(rt: HostRuntime) {
    let alloc = rt.alloc();
    let given = b"mul $0,$0\nsub $1,5\nlpb $0\nlpe\nseq $1,45\nclr $1,2\n";
    let source = b"mul $0,$0\nsub $1,$2\nlpb $0\nlpe\nseq $1,45\nclr $1,2\n";
    unnamed(&rt, alloc, given, &[0, 0, 7, 2, 1, 2], source);
    // No other instruction is drawn anew, and nothing more is drawn.
    unnamed(&rt, alloc, given, &[1, 0, 2, 0, 3], given);
    unnamed(&rt, alloc, given, &[1, 0, 4, 0, 5], given);
    // Its target alone.
    let target = b"mul $0,$0\nsub $2,5\nlpb $0\nlpe\nseq $1,45\nclr $1,2\n";
    unnamed(&rt, alloc, given, &[0, 4, 1, 6], target);
    unnamed(&rt, alloc, given, &[1, 4, 2, 4, 4], given);
}

#[test]
fn longer_and_shorter(rt: HostRuntime) {
    let alloc = rt.alloc();
    let given = b"mov $0,1\nlpb $0\nlpe\nseq $0,45\nclr $1,2\n";
    // An end and a beginning of a loop stay.
    let second = b"lpb $0\nlpe\nseq $0,45\nclr $1,2\n";
    unnamed(&rt, alloc, given, &[2, 2, 0, 2, 0, 2, 1], second);
    unnamed(&rt, alloc, given, &[2, 2, 3, 2, 3, 2, 0], b"lpb $0\nlpe\n");
    // In an empty list a change other than the first kind draws nothing more.
    unnamed(&rt, alloc, b"", &[2, 0, 2, 5], b"");
    unnamed(&rt, alloc, b"", &[1, 3, 4], b"");
    unnamed(&rt, alloc, b"mov $0,$1\n", &[1, 2, 0, 3], b"");
    // The longest change: 19 words.
    let words = [2, 1, 0, 1, 0, 4, 0, 1, 0, 2, 0, 4, 0, 1, 1, 3, 0, 4, 0];
    unnamed(
        &rt,
        alloc,
        b"",
        &words,
        b"sub $0,-2\nmul $0,-2\nadd $0,-2\n",
    );
    let mut longest = Vec::new(alloc);
    for _ in 0..1000 {
        longest
            .extend_from_slice(b"mov $0,$0\n")
            .expect(&rt, "a text");
    }
    unnamed(&rt, alloc, &longest, &[1, 1, 1], &longest);
}

#[test]
fn constants_moved(rt: HostRuntime) {
    let alloc = rt.alloc();
    let given =
        b"add $0,7\nadd $0,-170141183460469231731687303715884105727\nadd $0,170141183460469231731687303715884105727\nsub $1,$2\nseq $0,45\n";
    let up =
        b"add $0,8\nadd $0,-170141183460469231731687303715884105727\nadd $0,170141183460469231731687303715884105727\nsub $1,$2\nseq $0,45\n";
    unnamed(&rt, alloc, given, &[0, 3, 0, 1], up);
    let down =
        b"add $0,6\nadd $0,-170141183460469231731687303715884105727\nadd $0,170141183460469231731687303715884105727\nsub $1,$2\nseq $0,45\n";
    unnamed(&rt, alloc, given, &[0, 3, 0, 0], down);
    // Out of the number range no constant is moved.
    unnamed(&rt, alloc, given, &[1, 3, 1, 0, 3, 2, 1], given);
    let inwards =
        b"add $0,7\nadd $0,-170141183460469231731687303715884105726\nadd $0,170141183460469231731687303715884105726\nsub $1,$2\nseq $0,45\n";
    unnamed(&rt, alloc, given, &[1, 3, 1, 1, 3, 2, 0], inwards);
    // Without a constant nothing more is drawn.
    unnamed(&rt, alloc, given, &[1, 3, 3, 3, 4], given);
}

#[test]
fn names_changed(rt: HostRuntime) {
    let alloc = rt.alloc();
    let given = b"seq $3,45\nadd $0,1\n";
    named(
        &rt,
        alloc,
        given,
        &[1, 5, 0, 5, 5, 1],
        b"seq $3,16742\nadd $0,1\n",
    );
    unnamed(&rt, alloc, given, &[0, 5, 0], given);
}
