//! Runs of `publish` that propose names of the store.

pub const REPLACEMENTS: &str = "
== broken-caller
publish terms=t store=- cands=c
-- t
A000290 ,0,1,4,9,16,25,36,49,64,81,
A016742 ,0,4,16,36,64,100,144,196,
-- c
? A000290
mul $0,$0
? A016742
mul $0,2
seq $0,290
? A000290
mov $1,$0
min $1,9
mul $0,$1
-- ends 0 done
journal
job 0 base 0 A000290 accepted 10
mul $0,$0
job 1 base 1 A016742 accepted 8
mul $0,2
seq $0,290
job 2 base 2 A000290 broken 10 caller A016742 index 5 was 100 now 90
mov $1,$0
min $1,9
mul $0,$1
store
= A000290 10
mul $0,$0
= A016742 8
mul $0,2
seq $0,290
end jobs 3 version 2
== costlier-square
publish terms=t store=- cands=c
-- t
A000290 ,0,1,4,9,16,25,36,49,64,81,
-- c
? A000290
mul $0,$0
? A000290
mov $1,$0
mul $0,$1
-- ends 0 done
journal
job 0 base 0 A000290 accepted 10
mul $0,$0
job 1 base 1 A000290 costlier 0 was 1 now 2
mov $1,$0
mul $0,$1
store
= A000290 10
mul $0,$0
end jobs 2 version 1
== callee-got-cheaper
publish terms=t store=- cands=c
-- t
A000290 ,0,1,4,9,16,25,36,49,64,81,
A016742 ,0,4,16,36,64,100,144,196,
-- c
? A000290
mov $1,$0
mul $0,$1
? A016742
mul $0,2
seq $0,290
? A000290
mul $0,$0
? A000290
mov $1,$0
mul $0,$1
? A016742
mov $1,$0
mul $1,2
mul $1,$1
mov $0,$1
-- ends 0 done
journal
job 0 base 0 A000290 accepted 10
mov $1,$0
mul $0,$1
job 1 base 1 A016742 accepted 8
mul $0,2
seq $0,290
job 2 base 2 A000290 accepted 10
mul $0,$0
job 3 base 3 A000290 costlier 0 was 1 now 2
mov $1,$0
mul $0,$1
job 4 base 3 A016742 costlier 0 was 3 now 4
mov $1,$0
mul $1,2
mul $1,$1
mov $0,$1
store
= A000290 10
mul $0,$0
= A016742 8
mul $0,2
seq $0,290
end jobs 5 version 3
== cycle-refused
publish terms=t store=- cands=c
-- t
A000290 ,0,1,4,9,16,25,36,49,64,81,
A016742 ,0,4,16,36,64,100,144,196,
-- c
? A000290
mul $0,$0
? A016742
mul $0,2
seq $0,290
? A000290
seq $0,16742
? A000290
seq $0,290
-- ends 0 done
journal
job 0 base 0 A000290 accepted 10
mul $0,$0
job 1 base 1 A016742 accepted 8
mul $0,2
seq $0,290
job 2 base 2 A000290 cycle A016742
seq $0,16742
job 3 base 2 A000290 cycle A000290
seq $0,290
store
= A000290 10
mul $0,$0
= A016742 8
mul $0,2
seq $0,290
end jobs 4 version 2
== longer-square
publish terms=t store=- cands=c
-- t
A000290 ,0,1,4,9,16,25,36,49,64,81,
A016742 ,0,4,16,36,64,100,144,196,
-- c
? A000290
mul $0,$0
? A016742
mul $0,2
seq $0,290
? A000290
mul $0,$0
add $1,$0
-- ends 0 done
journal
job 0 base 0 A000290 accepted 10
mul $0,$0
job 1 base 1 A016742 accepted 8
mul $0,2
seq $0,290
job 2 base 2 A000290 costlier 0 was 1 now 2
mul $0,$0
add $1,$0
store
= A000290 10
mul $0,$0
= A016742 8
mul $0,2
seq $0,290
end jobs 3 version 2
== no-value-at-a-demanded-argument
publish terms=t store=- cands=c
-- t
A000290 ,0,1,4,9,16,25,36,49,64,81,
A016742 ,0,4,16,36,64,100,144,196,
-- c
? A000290
mul $0,$0
? A016742
mul $0,2
seq $0,290
? A000290
mov $1,$0
trn $1,9
mul $1,127
mov $2,2
pow $2,$1
mul $0,$0
? A000290
mov $1,$0
trn $1,9
mul $1,-1
mov $2,$$1
mul $0,$0
? A000290
mov $1,$0
trn $1,9
mul $1,100000
lpb $1
sub $1,1
lpe
mul $0,$0
-- ends 0 done
journal
job 0 base 0 A000290 accepted 10
mul $0,$0
job 1 base 1 A016742 accepted 8
mul $0,2
seq $0,290
job 2 base 2 A000290 broken 10 caller A016742 index 5 was 100 now overflow
mov $1,$0
trn $1,9
mul $1,127
mov $2,2
pow $2,$1
mul $0,$0
job 3 base 2 A000290 broken 10 caller A016742 index 5 was 100 now bad-cell
mov $1,$0
trn $1,9
mul $1,-1
mov $2,$$1
mul $0,$0
job 4 base 2 A000290 broken 10 caller A016742 index 5 was 100 now out-of-steps
mov $1,$0
trn $1,9
mul $1,100000
lpb $1
  sub $1,1
lpe
mul $0,$0
store
= A000290 10
mul $0,$0
= A016742 8
mul $0,2
seq $0,290
end jobs 5 version 2
== undone-call-demanded
publish terms=t store=- cands=c
-- t
A000290 ,0,1,4,9,16,25,36,49,64,81,
A001477 ,0,1,2,3,4,5,6,7,
-- c
? A000290
mul $0,$0
? A001477
mov $1,-1
lpb $2
seq $1,290
sub $2,1
lpe
? A000290
mov $1,$0
add $1,1
pow $1,-1
mul $0,$0
-- ends 0 done
journal
job 0 base 0 A000290 accepted 10
mul $0,$0
job 1 base 1 A001477 accepted 8
mov $1,-1
lpb $2
  seq $1,290
  sub $2,1
lpe
job 2 base 2 A000290 broken -1 caller A001477 index 0 was 1 now divide-by-zero
mov $1,$0
add $1,1
pow $1,-1
mul $0,$0
store
= A000290 10
mul $0,$0
= A001477 8
mov $1,-1
lpb $2
  seq $1,290
  sub $2,1
lpe
end jobs 3 version 2
== undone-call-at-twenty
publish terms=t store=- cands=c
-- t
A000290 ,0,1,4,9,16,25,36,49,64,81,
A001477 ,0,1,2,3,4,5,6,7,
-- c
? A000290
mul $0,$0
? A001477
mov $1,20
lpb $2
seq $1,290
sub $2,1
lpe
? A000290
mov $1,$0
sub $1,20
pow $1,-1
mul $0,$0
-- ends 0 done
journal
job 0 base 0 A000290 accepted 10
mul $0,$0
job 1 base 1 A001477 accepted 8
mov $1,20
lpb $2
  seq $1,290
  sub $2,1
lpe
job 2 base 2 A000290 broken 20 caller A001477 index 0 was 400 now divide-by-zero
mov $1,$0
sub $1,20
pow $1,-1
mul $0,$0
store
= A000290 10
mul $0,$0
= A001477 8
mov $1,20
lpb $2
  seq $1,290
  sub $2,1
lpe
end jobs 3 version 2
== more-terms-checked
publish steps=56 terms=t store=- cands=c
-- t
A000290 ,0,1,4,9,16,25,36,49,64,81,
A016742 ,0,4,16,36,64,100,144,196,256,324,
-- c
? A000290
mov $1,$0
lpb $1
sub $1,1
add $2,$0
lpe
mov $0,$2
? A016742
mul $0,2
seq $0,290
? A000290
mul $0,$0
? A016742
mul $0,2
seq $0,290
? A016742
mul $0,2
seq $0,290
-- ends 0 done
journal
job 0 base 0 A000290 accepted 10
mov $1,$0
lpb $1
  sub $1,1
  add $2,$0
lpe
mov $0,$2
job 1 base 1 A016742 accepted 9
mul $0,2
seq $0,290
job 2 base 2 A000290 accepted 10
mul $0,$0
job 3 base 3 A016742 accepted 10
mul $0,2
seq $0,290
job 4 base 4 A016742 no-gain
mul $0,2
seq $0,290
store
= A000290 10
mul $0,$0
= A016742 10
mul $0,2
seq $0,290
end jobs 5 version 4
== onto-a-store
publish store=s cands=c terms=t
-- t
A000290 ,0,1,4,9,16,25,36,49,64,81,
-- s
= A000290 10
mov $1,$0
mul $0,$1
-- c
? A000290
mul $0,$0
-- ends 0 done
journal
job 0 base 0 A000290 accepted 10
mul $0,$0
store
= A000290 10
mul $0,$0
end jobs 1 version 1
== each-refusal
publish terms=t store=- cands=c
-- t
A000290 ,0,1,4,9,16,25,36,49,64,81,
A016742 ,0,4,16,36,64,100,144,196,
-- c
? A000290
mul $0,$0
? A016742
mul $0,2
seq $0,290
? A000027
add $0,1
? A000290
seq $0,16742
? A000290
add $0,$0
? A000290
mov $1,$0
min $1,9
mul $0,$1
? A000290
mov $1,$0
mul $0,$1
? A000290
mul $0,$0
-- ends 0 done
journal
job 0 base 0 A000290 accepted 10
mul $0,$0
job 1 base 1 A016742 accepted 8
mul $0,2
seq $0,290
job 2 base 2 A000027 unlisted
add $0,1
job 3 base 2 A000290 cycle A016742
seq $0,16742
job 4 base 2 A000290 wrong 1 got 2
add $0,$0
job 5 base 2 A000290 broken 10 caller A016742 index 5 was 100 now 90
mov $1,$0
min $1,9
mul $0,$1
job 6 base 2 A000290 costlier 0 was 1 now 2
mov $1,$0
mul $0,$1
job 7 base 2 A000290 no-gain
mul $0,$0
store
= A000290 10
mul $0,$0
= A016742 8
mul $0,2
seq $0,290
end jobs 8 version 2
";
