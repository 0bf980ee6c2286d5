//! The pages of help.

use crate::help::{Command, Help};

impl Help {
    /// The page: lines that each end with LF.
    pub fn text(self) -> &'static str {
        match self {
            Help::All => ALL,
            Help::About(Command::Publish) => PUBLISH,
            Help::About(Command::Mine) => MINE,
            Help::About(Command::Check) => CHECK,
            Help::About(Command::Eval) => EVAL,
            Help::About(Command::Made) => MADE,
            Help::Version => VERSION,
        }
    }
}

const VERSION: &str = "loda_mine 0.1.0\n";

const ALL: &str = "\
loda_mine: a miner for integer sequences in the LODA assembly language, with a store of programs

  loda_mine publish terms=FILE store=FILE cands=FILE [steps=N]
      Judges the candidates one after the other. Writes the journal of what was decided, and the new store.
      loda_mine publish terms=examples/terms.txt store=examples/store.txt cands=examples/candidates.txt

  loda_mine mine terms=FILE store=FILE seed=N jobs=N workers=N [steps=N]
      Makes its candidates itself, from a seed, and publishes them. Writes what `publish` writes.
      loda_mine mine terms=examples/terms.txt store=examples/store.txt seed=7 jobs=2000 workers=1

  loda_mine check terms=FILE store=FILE [steps=N]
      Says whether the store is sound: no cycle of calls, and every program gives its checked terms.
      loda_mine check terms=examples/terms.txt store=examples/store.txt

  loda_mine eval store=FILE name=NAME arg=N [steps=N]
      Runs one program of the store at one argument.
      loda_mine eval store=examples/store.txt name=A000045 arg=7

  loda_mine made n=N kind=KIND
      Makes input of any size, for trials.
      loda_mine made n=25 kind=run

  loda_mine COMMAND --help     the words of one command
  loda_mine --help | -h | help this page
  loda_mine --version          name and version

The command comes first; the other words may come in any order. store=- is the empty store. No file is ever changed:
all output goes to standard output, made whole before its first byte is written. Never redirect it onto the store that
is read: the shell empties that file first, and an empty file is a sound store. examples/next-store makes the next
store of a report.

Where the program does not end with 0, one line on standard error says why:

   0  done               5  a file too large       9  bad candidates
   2  usage              6  a line too long       10  the store is not sound
   3  cannot read        7  bad terms             11  out of memory
   4  cannot write       8  bad store             12  no such program

In the repository: README.md; docs/TUTORIAL.md, ten minutes with the files of examples/; docs/FORMATS.md, every file,
word, output and status.
";

const PUBLISH: &str = "\
loda_mine publish terms=FILE store=FILE cands=FILE [steps=N]

Judges the candidates one after the other, each in the store that the ones before it have made. Writes the journal, each
proposed program behind its line, and then the new store. No file is changed.

  terms=FILE   the terms of sequences, in the form of the stripped file of the OEIS
  store=FILE   the published programs; store=- is the empty store
  cands=FILE   the proposed programs
  steps=N      the most steps of one run, 1 to 10000000; without it 100000

  loda_mine publish terms=examples/terms.txt store=examples/store.txt cands=examples/candidates.txt > report.txt
  examples/next-store report.txt new-store.txt examples/terms.txt examples/store.txt
";

const MINE: &str = "\
loda_mine mine terms=FILE store=FILE seed=N jobs=N workers=N [steps=N]

Each job draws a program or changes a published one, looks which rows of terms its values match, cuts it down, and
publishes it. Writes the journal and the new store, as `publish` does. No file is changed. With one worker the same words
and files give the same bytes; with more the order of the jobs may differ from run to run.

  terms=FILE   the terms of sequences, in the form of the stripped file of the OEIS
  store=FILE   the published programs; store=- is the empty store
  seed=N       what the draws are made from, 0 to 18446744073709551615
  jobs=N       how many jobs are done, 0 to 1000000
  workers=N    how many workers do them, 1 to 64
  steps=N      the most steps of one run, 1 to 10000000; without it 100000

  loda_mine mine terms=examples/terms.txt store=examples/store.txt seed=7 jobs=2000 workers=1 > report.txt
  examples/next-store report.txt new-store.txt examples/terms.txt examples/store.txt
";

const CHECK: &str = "\
loda_mine check terms=FILE store=FILE [steps=N]

Says whether the store is sound for these terms: no program calls itself, directly or through others, and each gives
the terms for which it was checked. Writes the numbers of rows and programs, or ends with 10 and says the first fault.

  terms=FILE   the terms of sequences, in the form of the stripped file of the OEIS
  store=FILE   the published programs; store=- is the empty store
  steps=N      the most steps of one run, 1 to 10000000; without it 100000

  loda_mine check terms=examples/terms.txt store=examples/store.txt
";

const EVAL: &str = "\
loda_mine eval store=FILE name=NAME arg=N [steps=N]

Runs one program of a store at one argument, and writes its value or its fault with the steps that it took, or
`out-of-steps`; each ends with 0. The store need not be sound.

  store=FILE   the published programs
  name=NAME    a name, as A000045
  arg=N        the argument; the first term of a sequence is at 0; negative ones have a - before them
  steps=N      the most steps of one run, 1 to 10000000; without it 100000

  loda_mine eval store=examples/store.txt name=A000045 arg=7
";

const MADE: &str = "\
loda_mine made n=N kind=KIND

Makes input of any size, for trials. Reads no file.

  n=N          how many names are made, 1 to 20000
  kind=terms   writes a terms file
  kind=store   writes a store
  kind=cands   writes candidates
  kind=run     publishes the made candidates against the made terms, and writes a summary

  loda_mine made n=25 kind=run
";
