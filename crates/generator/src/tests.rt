//! Each line of the table of draws, by words that reach it.

use super::*;
use loda_syntax::print;
use std::alloc::Global;
use std::process::Abort;
use word_stream::{Draws, Listed};

const NAMES: [u32; 3] = [45, 290, 16_742];

fn unnamed(rt: &impl Abort, alloc: Global, words: &[u32], want: &[u8]) {
    assert_drawn!(
        rt,
        alloc,
        words,
        draws,
        generate(alloc, &mut draws, &[]),
        want
    );
}

fn named(rt: &impl Abort, alloc: Global, words: &[u32], want: &[u8]) {
    assert_drawn!(
        rt,
        alloc,
        words,
        draws,
        generate(alloc, &mut draws, &NAMES),
        want
    );
}

#[test]
fn each_verb(rt: HostRuntime) {
    let alloc = rt.alloc();
    unnamed(
        &rt,
        alloc,
        &[
            7, 0, 0, 0, 1, 1, 1, 2, 2, 2, 3, 3, 3, 4, 0, 3, 5, 1, 2, 6, 2, 1, 7, 3, 0,
        ],
        b"mov $0,$0\nadd $1,$1\nsub $2,$2\nmul $3,$3\ntrn $0,$3\ndiv $1,$2\nmod $2,$1\npow $3,$0\n",
    );
    // Each word counts modulo its bound.
    unnamed(
        &rt,
        alloc,
        &[11, 24, 4, 12, 24, 9, 1, 5, 2, 10, 2, 6, 11, 11, 3, 7, 1],
        b"gcd $0,-2\nbin $1,0\nequ $2,9\nmax $3,-1\n",
    );
}

#[test]
fn at_most_33_words(rt: HostRuntime) {
    unnamed(
        &rt,
        rt.alloc(),
        &[
            7, 1, 0, 4, 0, 1, 0, 4, 0, 1, 0, 4, 0, 1, 0, 4, 0, 1, 0, 4, 0, 1, 0, 4, 0, 1, 0, 4, 0,
            1, 0, 4, 0,
        ],
        b"add $0,-2\nadd $0,-2\nadd $0,-2\nadd $0,-2\nadd $0,-2\nadd $0,-2\nadd $0,-2\nadd $0,-2\n",
    );
}

#[test]
fn generated_linear(rt: HostRuntime) {
    unnamed(
        &rt,
        rt.alloc(),
        &[1, 0, 1, 4, 5, 3, 0, 1],
        b"mov $1,3\nmul $0,$1\n",
    );
}

#[test]
fn generated_loop(rt: HostRuntime) {
    let alloc = rt.alloc();
    let down = b"lpb $2\n  sub $2,1\nlpe\n";
    unnamed(&rt, alloc, &[0, 12, 2], down);
    // Without a loop to end nothing is added.
    unnamed(&rt, alloc, &[1, 13, 12, 2], down);
    unnamed(&rt, alloc, &[2, 12, 2, 13, 13], down);
    // Each loop that isn't ended is ended.
    unnamed(
        &rt,
        alloc,
        &[1, 12, 2, 12, 6],
        b"lpb $2\n  sub $2,1\n  lpb $2\n    sub $2,1\n  lpe\nlpe\n",
    );
}

#[test]
fn names_are_called(rt: HostRuntime) {
    let alloc = rt.alloc();
    named(
        &rt,
        alloc,
        &[1, 14, 3, 1, 15, 6, 5],
        b"seq $3,290\nseq $2,16742\n",
    );
    // Without a name nothing more is drawn.
    unnamed(&rt, alloc, &[1, 14, 15], b"");
}
