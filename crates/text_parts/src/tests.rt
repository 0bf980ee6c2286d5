//! Texts and their parts.

use crate::{
    decimal_up_to, name_of, name_text, number_up_to, trim, trim_back, trim_front, without_return,
};
use std::process::Abort;

fn same(text: &[u8], want: &[u8]) -> bool {
    text == want
}

#[test]
fn parts_of_texts(rt: HostRuntime) {
    assert!(rt; same(trim(b" \ta b\t "), b"a b"));
    assert!(rt; same(trim_front(b" \ta "), b"a "));
    assert!(rt; same(trim_back(b" a \t"), b" a"));
    assert!(rt; same(without_return(b"a\r\r"), b"a\r"));
    assert!(rt; same(without_return(b""), b""));
    assert!(rt; number_up_to(b"007", 1_000) == Some(7));
    assert!(rt; number_up_to(b"999999999999", 1_000) == Some(1_000));
    assert!(rt; number_up_to(b"", 10).is_none());
    assert!(rt; number_up_to(b"1x", 10).is_none());
    assert!(rt; decimal_up_to(b"0", 10) == Some(0));
    assert!(rt; decimal_up_to(b"01", 10).is_none());
    assert!(rt; decimal_up_to(b"10", 9) == Some(9));
    assert!(rt; name_of(b"A000290") == Some(290));
    assert!(rt; name_of(b"A000000").is_none());
    assert!(rt; name_of(b"A29").is_none());
    assert!(rt; same(&name_text(290), b"A000290"));
}
