//! Runs of `check`.

pub const CHECKS: &str = "
== line-forms
check terms=t store=-
-- t without LF
# OEIS\r
\r
A000290 ,0,1,4,9,16,25,36,49,64,81,\r
A000027 ,1,2,3,4,5,6,7,8,
-- ends 0 done
rows 2
skipped 0
programs 0
sound
== line-forms-repeated
check terms=t store=-
-- t without LF
A000290 ,0,1,4,9,16,25,36,49,64,81,
A000290 ,0,1,4,9,16,25,36,49,64,81,
-- ends 7 terms line 2: repeated A000290
== line-forms-bad-term
check terms=t store=s
-- t without LF
A000290 ,0,1x,4,
-- s
-- ends 7 terms line 1: bad-term column 12
== line-forms-no-comma
check terms=t store=s
-- t without LF
A000290 ,0,1
-- s
-- ends 7 terms line 1: no-comma
== line-forms-bad-name
check terms=t store=s
-- t without LF
A29 ,0,
-- s
-- ends 7 terms line 1: bad-name
== wide-term-skipped
check terms=t store=-
-- t
A000290 ,0,1,4,9,16,25,36,170141183460469231731687303715884105728,64,81,
-- ends 0 done
rows 0
skipped 1
programs 0
sound
== low-count
check terms=t store=s
-- t
-- s
= A000290 7
-- ends 8 store line 1: bad-count
== names-out-of-order
check terms=t store=s
-- t
-- s
= A000290 10
= A000045 8
-- ends 8 store line 2: out-of-order
== repeated-name
check terms=t store=s
-- t
-- s
= A000045 8
= A000045 8
-- ends 8 store line 2: repeated
== bad-line-of-a-program
check terms=t store=s
-- t
-- s
= A000045 8
mov $0,1
foo $0,1
-- ends 8 store line 3: unknown-op
== header-without-space
check terms=t store=s
-- t
-- s
=A000290 10
-- ends 8 store line 1: bad-header
== count-past-the-row
check terms=t store=s
-- t
A000290 ,0,1,4,9,16,25,36,49,64,81,
-- s
= A000290 11
mul $0,$0
-- ends 10 unsound: A000290 checked 11 usable 10
== no-row
check terms=t store=s
-- t
A000290 ,0,1,4,9,16,25,36,49,64,81,
-- s
= A000291 8
mul $0,$0
-- ends 10 unsound: A000291 has no row
== cyclic-store-checked
check terms=t store=s
-- t
A000001 ,0,0,0,0,0,0,0,0,
A000002 ,0,0,0,0,0,0,0,0,
-- s
= A000001 8
seq $0,2
= A000002 8
seq $0,1
-- ends 10 unsound: cycle through A000001
== unsound-opening
check terms=t store=s
-- t
A000290 ,0,1,4,9,16,25,36,49,64,81,
-- s
= A000290 10
mov $1,$0
min $1,8
mul $0,$1
-- ends 10 unsound: A000290 index 9 got 72
== terms-before-the-store
check terms=t store=s
-- t
x
-- s
x
-- ends 7 terms line 1: bad-name
== terms-not-there
check terms=x store=s
-- s
x
-- ends 3 cannot read terms
";
