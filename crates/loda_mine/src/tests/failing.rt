//! Runs whose files and outputs fail.

/// Under `reads` stands the file of each read, in order.
pub const ENDS: &str = "
== square-published
publish terms=t store=- cands=c
-- reads
terms terms candidates candidates
-- t
A000290 ,0,1,4,9,16,25,36,49,64,81,
-- c
? A000290
mul $0,$0
-- ends 0 done
journal
job 0 base 0 A000290 accepted 10
mul $0,$0
store
= A000290 10
mul $0,$0
end jobs 1 version 1
== onto-a-store
publish store=s cands=c terms=t
-- reads
terms terms store store candidates candidates
-- t
A000290 ,0,1,4,9,16,25,36,49,64,81,
-- s
= A000290 10
mov $1,$0
mul $0,$1
-- c
? A000290
mul $0,$0
-- ends 0 done
journal
job 0 base 0 A000290 accepted 10
mul $0,$0
store
= A000290 10
mul $0,$0
end jobs 1 version 1
== checked
check terms=t store=s
-- reads
terms terms store store
-- t
A000290 ,0,1,4,9,16,25,36,49,64,81,
-- s
= A000290 10
mul $0,$0
-- ends 0 done
rows 1
skipped 0
programs 1
sound
== checked-without-store
check terms=t store=-
-- reads
terms terms
-- t
A000290 ,0,1,4,9,16,25,36,49,64,81,
-- ends 0 done
rows 1
skipped 0
programs 0
sound
== evaluated
eval store=s name=A000290 arg=-12
-- reads
store store
-- s
= A000290 10
mul $0,$0
-- ends 0 done
value 144 steps 1
== made-terms
made kind=terms n=2
-- reads
-- ends 0 done
A000001 ,0,1,2,3,4,5,6,7,8,9,
A000002 ,1,3,5,7,9,11,13,15,17,19,
== made-run
made n=25 kind=run
-- reads
-- ends 0 done
made 25
rows 25
jobs 50
accepted 47
no-gain 3
version 47
== mined-without-jobs
mine terms=t store=s seed=7 jobs=0 workers=1
-- reads
terms terms store store
-- t
A000290 ,0,1,4,9,16,25,36,49,64,81,
-- s
= A000290 10
mul $0,$0
-- ends 0 done
journal
store
= A000290 10
mul $0,$0
end jobs 0 version 0
== mined
mine terms=t store=- seed=163 jobs=6 workers=1
-- reads
terms terms
-- t
A000290 ,0,1,4,9,16,25,36,49,64,81,
A016742 ,0,4,16,36,64,100,144,196,
-- ends 0 done
journal
job 0 base 0 A000290 accepted 10
mul $0,$0
job 1 base 1 A016742 accepted 8
mul $0,$0
mul $0,4
job 2 base 2 none
job 3 base 2 none
job 4 base 2 none
job 5 base 2 none
store
= A000290 10
mul $0,$0
= A016742 8
mul $0,$0
mul $0,4
end jobs 6 version 2
";
