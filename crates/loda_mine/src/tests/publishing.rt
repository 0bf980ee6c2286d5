//! Runs of `publish` that propose new names, or are refused.

pub const NEW_NAMES: &str = "
== square-published
publish terms=t store=- cands=c
-- t
A000290 ,0,1,4,9,16,25,36,49,64,81,
-- c
? A000290
mul $0,$0
-- ends 0 done
journal
job 0 base 0 A000290 accepted 10
mul $0,$0
store
= A000290 10
mul $0,$0
end jobs 1 version 1
== wrong-at-one
publish terms=t store=- cands=c
-- t
A000290 ,0,1,4,9,16,25,36,49,64,81,
-- c
? A000290
add $0,$0
-- ends 0 done
journal
job 0 base 0 A000290 wrong 1 got 2
add $0,$0
store
end jobs 1 version 0
== unlisted-name
publish terms=t store=- cands=c
-- t
A000290 ,0,1,4,9,16,25,36,49,64,81,
-- c
? A000027
add $0,1
-- ends 0 done
journal
job 0 base 0 A000027 unlisted
add $0,1
store
end jobs 1 version 0
== empty-inputs
publish terms=t store=- cands=c
-- t
-- c
-- ends 0 done
journal
store
end jobs 0 version 0
== wide-term
publish terms=t store=- cands=c
-- t
A000290 ,0,1,4,9,16,25,36,49,64,170141183460469231731687303715884105728,100,
-- c
? A000290
mul $0,$0
-- ends 0 done
journal
job 0 base 0 A000290 accepted 9
mul $0,$0
store
= A000290 9
mul $0,$0
end jobs 1 version 1
== wide-term-before-the-eighth
publish terms=t store=- cands=c
-- t
A000290 ,0,1,4,9,16,25,36,170141183460469231731687303715884105728,64,100,
-- c
? A000290
mul $0,$0
-- ends 0 done
journal
job 0 base 0 A000290 unlisted
mul $0,$0
store
end jobs 1 version 0
== caller-of-square
publish terms=t store=- cands=c
-- t
A000290 ,0,1,4,9,16,25,36,49,64,81,
A016742 ,0,4,16,36,64,100,144,196,
-- c
? A000290
mul $0,$0
? A016742
mul $0,2
seq $0,290
-- ends 0 done
journal
job 0 base 0 A000290 accepted 10
mul $0,$0
job 1 base 1 A016742 accepted 8
mul $0,2
seq $0,290
store
= A000290 10
mul $0,$0
= A016742 8
mul $0,2
seq $0,290
end jobs 2 version 2
== missing-callee
publish terms=t store=- cands=c
-- t
A000290 ,0,1,4,9,16,25,36,49,64,81,
A016742 ,0,4,16,36,64,100,144,196,
-- c
? A016742
mul $0,2
seq $0,290
-- ends 0 done
journal
job 0 base 0 A016742 wrong 0 got missing
mul $0,2
seq $0,290
store
end jobs 1 version 0
== self-call
publish terms=t store=- cands=c
-- t
A000290 ,0,1,4,9,16,25,36,49,64,81,
A016742 ,0,4,16,36,64,100,144,196,
-- c
? A000290
seq $0,290
-- ends 0 done
journal
job 0 base 0 A000290 cycle A000290
seq $0,290
store
end jobs 1 version 0
== other-faults
publish terms=t store=- cands=c
-- t
A000290 ,0,1,4,9,16,25,36,49,64,81,
-- c
? A000290
mov $0,2
pow $0,127
? A000290
div $0,0
? A000290
mov $0,-1
mov $1,$$0
-- ends 0 done
journal
job 0 base 0 A000290 wrong 0 got overflow
mov $0,2
pow $0,127
job 1 base 0 A000290 wrong 0 got divide-by-zero
div $0,0
job 2 base 0 A000290 wrong 0 got bad-cell
mov $0,-1
mov $1,$$0
store
end jobs 3 version 0
== step-limit-cuts
publish terms=t store=- cands=c steps=50
-- t
A000045 ,0,1,1,2,3,5,8,13,21,34,
-- c
? A000045
mov $1,1
lpb $0
sub $0,1
mov $3,$1
add $1,$2
mov $2,$3
lpe
mov $0,$2
-- ends 0 done
journal
job 0 base 0 A000045 accepted 9
mov $1,1
lpb $0
  sub $0,1
  mov $3,$1
  add $1,$2
  mov $2,$3
lpe
mov $0,$2
store
= A000045 9
mov $1,1
lpb $0
  sub $0,1
  mov $3,$1
  add $1,$2
  mov $2,$3
lpe
mov $0,$2
end jobs 1 version 1
== step-limit-cuts-one-less
publish terms=t store=- cands=c steps=42
-- t
A000045 ,0,1,1,2,3,5,8,13,21,34,
-- c
? A000045
mov $1,1
lpb $0
sub $0,1
mov $3,$1
add $1,$2
mov $2,$3
lpe
mov $0,$2
-- ends 0 done
journal
job 0 base 0 A000045 wrong 7 got out-of-steps
mov $1,1
lpb $0
  sub $0,1
  mov $3,$1
  add $1,$2
  mov $2,$3
lpe
mov $0,$2
store
end jobs 1 version 0
== open-loop
publish terms=t store=- cands=c
-- t
A000290 ,0,1,4,9,16,25,36,49,64,81,
-- c
? A000290
lpb $0
-- ends 9 candidates line 2: loop-open
== unsound-opening-published
publish terms=t store=s cands=c
-- t
A000290 ,0,1,4,9,16,25,36,49,64,81,
-- s
= A000290 10
mov $1,$0
min $1,8
mul $0,$1
-- c
-- ends 10 unsound: A000290 index 9 got 72
== candidates-left-out
publish terms=t store=-
-- ends 2 usage
== no-words

-- ends 2 usage
";
