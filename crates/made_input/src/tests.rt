//! Made input of three names.

use crate::{candidates_text, made_candidates, made_table, store_text, terms_text};
use std::test::Fail;

const TERMS: &str =
    "A000001 ,0,1,2,3,4,5,6,7,8,9,\nA000002 ,1,3,5,7,9,11,13,15,17,19,\nA000003 ,2,5,8,11,14,17,20,23,26,29,\n";

const STORE: &str =
    "= A000001 10\nmul $0,1\nadd $0,0\n= A000002 10\nmov $1,$0\nseq $0,1\nadd $0,$1\nadd $0,1\n= A000003 10\nmov $1,$0\nseq $0,2\nadd $0,$1\nadd $0,1\n";

const CANDIDATES: &str =
    "? A000001\nmul $0,1\nadd $0,0\n? A000002\nmov $1,$0\nseq $0,1\nadd $0,$1\nadd $0,1\n? A000003\nmov $1,$0\nseq $0,2\nadd $0,$1\nadd $0,1\n? A000001\nmul $0,1\nadd $0,0\n? A000002\nmul $0,2\nadd $0,1\n? A000003\nmul $0,3\nadd $0,2\n";

#[test]
fn three_names(rt: HostRuntime) -> Result<(), Fail> {
    let alloc = rt.alloc();
    assert_eq!(rt; terms_text(alloc, 3)?.as_slice(), TERMS.as_bytes());
    assert_eq!(rt; store_text(alloc, 3)?.as_slice(), STORE.as_bytes());
    assert_eq!(rt;
        candidates_text(alloc, 3)?.as_slice(),
        CANDIDATES.as_bytes()
    );
    let table = made_table(alloc, 3)?;
    assert_eq!(rt; table.rows(), 3);
    assert_eq!(rt; made_candidates(alloc, 3)?.len(), 6);
    Ok(())
}
