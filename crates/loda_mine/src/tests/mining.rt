//! Runs of `mine`.

pub const MINED: &str = "
== empty-inputs
mine terms=t store=- seed=7 jobs=0 workers=1
-- t
-- ends 0 done
journal
store
end jobs 0 version 0
== empty-inputs-with-workers
mine terms=t store=- seed=7 jobs=0 workers=4
-- t
-- ends 0 done
journal
store
end jobs 0 version 0
== unsound-opening
mine terms=t store=s seed=7 jobs=5 workers=1
-- t
A000290 ,0,1,4,9,16,25,36,49,64,81,
-- s
= A000290 10
mov $1,$0
min $1,8
mul $0,$1
-- ends 10 unsound: A000290 index 9 got 72
== terms-not-there
mine terms=x store=- seed=7 jobs=5 workers=1
-- ends 3 cannot read terms
== no-workers
mine terms=t store=- seed=7 jobs=1 workers=0
-- ends 2 usage
== too-many-workers
mine terms=t store=- seed=7 jobs=1 workers=65
-- ends 2 usage
== too-many-jobs
mine terms=t store=- seed=7 jobs=1000001 workers=1
-- ends 2 usage
== wide-seed
mine terms=t store=- seed=18446744073709551616 jobs=1 workers=1
-- ends 2 usage
== no-seed
mine terms=t store=- jobs=1 workers=1
-- ends 2 usage
== repeated-seed
mine terms=t store=- seed=7 seed=7 jobs=1 workers=1
-- ends 2 usage
== other-key
mine terms=t store=- cands=c seed=7 jobs=1 workers=1
-- ends 2 usage
";

pub const BOTH: &str = "\
A000290 ,0,1,4,9,16,25,36,49,64,81,
A016742 ,0,4,16,36,64,100,144,196,
";
