//! Programs made at random: which program is made is a function of the random words and of the names
//! that it may call.
#![tactic(auto)]

mod arithmetic;
mod draft;
mod generation;
pub mod laws;
#[cfg(test)]
mod tests;

pub use arithmetic::{draw_arithmetic, drawn_verb};
pub use generation::generate;

/// Asserts in a test that `$made`, which draws from `$draws`, is a program of the text `$want` and takes just these words.
#[macro_export]
macro_rules! assert_drawn {
    ($rt:expr, $alloc:expr, $words:expr, $draws:ident, $made:expr, $want:expr) => {{
        // A word that stands behind the others: the next draw shows that just those were taken.
        let mark = 999_983;
        let mut list = $words.to_vec($alloc).expect($rt, "words");
        list.push(mark).expect($rt, "the mark");
        let mut $draws = Draws::new(Listed::new(list));
        let made = $made.expect($rt, "memory");
        let mut text = Vec::new($alloc);
        print(&made, &mut text).expect($rt, "a text");
        assert!($rt; text.as_slice() == $want, "{made:?}");
        assert_eq!($rt; $draws.below(4_294_967_295), mark, "{made:?}");
    }};
}
