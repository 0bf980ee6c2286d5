//! Runs of `eval`.

pub const EVALUATIONS: &str = "
== fibonacci
eval store=s name=A000045 arg=0
-- s
= A000045 10
; Fibonacci numbers
mov $1,1
lpb $0
sub $0,1
mov $3,$1
add $1,$2
mov $2,$3
lpe
mov $0,$2
-- ends 0 done
value 0 steps 8
== fibonacci-at-seven
eval arg=7 name=A000045 store=s
-- s
= A000045 10
; Fibonacci numbers
mov $1,1
lpb $0
sub $0,1
mov $3,$1
add $1,$2
mov $2,$3
lpe
mov $0,$2
-- ends 0 done
value 13 steps 43
== as-many-steps-as-needed
eval store=s name=A000045 arg=7 steps=43
-- s
= A000045 10
; Fibonacci numbers
mov $1,1
lpb $0
sub $0,1
mov $3,$1
add $1,$2
mov $2,$3
lpe
mov $0,$2
-- ends 0 done
value 13 steps 43
== one-step-fewer
eval store=s name=A000045 arg=7 steps=42
-- s
= A000045 10
; Fibonacci numbers
mov $1,1
lpb $0
sub $0,1
mov $3,$1
add $1,$2
mov $2,$3
lpe
mov $0,$2
-- ends 0 done
out-of-steps
== region-of-two
eval store=s name=A000002 arg=0
-- s
= A000002 8
mov $1,2
lpb $0,2
sub $1,1
add $2,1
lpe
mov $0,$2
-- ends 0 done
value 2 steps 15
== cyclic-store
eval store=s name=A000001 arg=0
-- s
= A000001 8
seq $0,2
= A000002 8
seq $0,1
-- ends 0 done
out-of-steps
== divided-by-zero
eval store=s name=A000001 arg=-5
-- s
= A000001 8
div $0,0
-- ends 0 done
fault divide-by-zero steps 1
== missing-program
eval store=s name=A000001 arg=-5
-- s
= A000001 8
seq $0,7
-- ends 0 done
fault missing steps 1
== steps-spent
eval store=s name=A000001 arg=0 steps=10000000
-- s
= A000001 8
mov $1,1000000000000
lpb $1
sub $1,1
lpe
-- ends 0 done
out-of-steps
== overflow-fault
eval store=s name=A000001 arg=0
-- s
= A000001 8
mov $0,170141183460469231731687303715884105727
add $0,1
-- ends 0 done
fault overflow steps 2
== bad-cell-fault
eval store=s name=A000001 arg=4096
-- s
= A000001 8
mov $$0,1
-- ends 0 done
fault bad-cell steps 1
== absent-from-a-cyclic-store
eval store=s name=A000003 arg=0
-- s
= A000001 8
seq $0,2
= A000002 8
seq $0,1
-- ends 12 no program A000003
== absent
eval store=s name=A000003 arg=0
-- s
= A000045 10
; Fibonacci numbers
mov $1,1
lpb $0
sub $0,1
mov $3,$1
add $1,$2
mov $2,$3
lpe
mov $0,$2
-- ends 12 no program A000003
== absent-from-the-empty-store
eval store=- name=A000003 arg=-5
-- ends 12 no program A000003
== store-not-there
eval store=x name=A000003 arg=-5
-- s
= A000045 10
; Fibonacci numbers
mov $1,1
lpb $0
sub $0,1
mov $3,$1
add $1,$2
mov $2,$3
lpe
mov $0,$2
-- ends 3 cannot read store
== store-header-without-count
eval store=s name=A000045 arg=0
-- s
= A000045
-- ends 8 store line 1: bad-header
";
