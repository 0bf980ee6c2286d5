//! Runs of `made`.

pub const MADE: &str = "
== made-run
made n=25 kind=run
-- ends 0 done
made 25
rows 25
jobs 50
accepted 47
no-gain 3
version 47
== made-2000
made n=2000 kind=run
-- ends 0 done
made 2000
rows 2000
jobs 4000
accepted 3800
no-gain 200
version 3800
== made-terms
made kind=terms n=2
-- ends 0 done
A000001 ,0,1,2,3,4,5,6,7,8,9,
A000002 ,1,3,5,7,9,11,13,15,17,19,
== made-store
made n=2 kind=store
-- ends 0 done
= A000001 10
mul $0,1
add $0,0
= A000002 10
mov $1,$0
seq $0,1
add $0,$1
add $0,1
== made-candidates
made n=2 kind=cands
-- ends 0 done
? A000001
mul $0,1
add $0,0
? A000002
mov $1,$0
seq $0,1
add $0,$1
add $0,1
? A000001
mul $0,1
add $0,0
? A000002
mul $0,2
add $0,1
";

/// What is published of what is made for three names.
pub const MADE_REPORT: &str = "\
journal
job 0 base 0 A000001 accepted 10
mul $0,1
add $0,0
job 1 base 1 A000002 accepted 10
mov $1,$0
seq $0,1
add $0,$1
add $0,1
job 2 base 2 A000003 accepted 10
mov $1,$0
seq $0,2
add $0,$1
add $0,1
job 3 base 3 A000001 no-gain
mul $0,1
add $0,0
job 4 base 3 A000002 accepted 10
mul $0,2
add $0,1
job 5 base 4 A000003 accepted 10
mul $0,3
add $0,2
store
= A000001 10
mul $0,1
add $0,0
= A000002 10
mul $0,2
add $0,1
= A000003 10
mul $0,3
add $0,2
end jobs 6 version 5
";
