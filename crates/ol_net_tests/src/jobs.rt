//! Lines of words that have a job, and lines that have none.

use ol_words::job;
use std::alloc::{AllocError, Global};
use std::test::Fail;

/// The words of a line, between single spaces.
fn words(alloc: Global, line: &str) -> Result<Vec<String>, AllocError> {
    let mut words = Vec::new(alloc);
    for word in line.split(' ') {
        words.push(String::from_str(alloc, word)?)?;
    }
    Ok(words)
}

/// The job of a line, or why it has none.
fn answer(alloc: Global, line: &str) -> Result<String, AllocError> {
    let words = words(alloc, line)?;
    match job(alloc, &words) {
        Ok(job) => format!(in alloc; "{job:?}"),
        Err(fault) => format!(in alloc; "{fault:?}"),
    }
}

/// Lines without a job, parted by `;`.
#[test]
fn lines_without_a_job(rt: HostRuntime) -> Result<(), Fail> {
    let lines = str::from_utf8(
        b"ol;ol run;ol run a b;ol run -- a b;ol run --workers 0 -;ol run --workers 65 -;\
        ol run --fuel 8000001 -;ol run --fuel 5 --fuel 5 -;ol run --fuel=5 --fuel 5 -;\
        ol run --fuel=x -;ol run --fuel +5 -;ol run --fuel -5 -;ol run --fuel= -;ol run --fuel;\
        ol run - --fuel;ol run --fuel -- -;ol run --heads 000000001 -;ol run --work 3 -;\
        ol run -w 3 -;ol run --edges 5 -;ol run --translation 0 -;ol run --translation 3 -;\
        ol run --translation=two -;ol run --translation -;\
        ol run --translation 1 --translation 1 -;ol run --trans 1 -;ol run --help;ol RUN -;\
        ol walk;ol walk --fuel 5 -;ol walk --edges= -;ol walk --edges 0 -;\
        ol walk --edges 10000001 -;ol view;ol view a b;ol view --after;ol view --after 8000001 -;\
        ol view --after 1 --after=1 -;ol view --fuel 1 -;ol trace;ol trace --workers 65 -;\
        ol trace --fuel 8000001 -;ol trace --heads 3 -;ol trace --work 3 -;ol check;ol check a;\
        ol check a b c;ol check - -;ol check -- - -;ol check - -- -;ol check --fuel 1 a b;\
        ol check --translation 3 a b;ol check a b -- --translation 1;ol check --help a b;ol gen;\
        ol gen 11;ol gen 3 --translation;ol gen x;ol gen -;ol gen -3;ol gen +3;ol gen 1 2;\
        ol gen 000000001;ol gen --run;ol gen --run 3 --run;ol gen --run=1 3;ol gen --run= 3;\
        ol gen --ru 3;ol gen -- --run;ol gen -r 3;ol demand;ol demand a b;ol demand --workers 1 -;\
        ol demand --fuel 8000001 -;ol demand --heads 0 -;ol demand --steps 1 -;ol certify;\
        ol certify a b;ol certify --steps -;ol certify --steps 10001 -;\
        ol certify --steps 1 --steps 1 -;ol certify --edges 3 -;ol net;ol net a b;\
        ol net --from-term;ol net --from-term=1 a;ol net --from-term a --from-term;\
        ol net --from a;ol net --heads 3 a;ol equal;ol equal a;ol equal a b c;ol equal - -;\
        ol equal - -- -;ol equal --steps 3 a b;ol equal --workers 0 a b;ol help run;ol --help"
            .as_slice(),
    )
    .ok()
    .ok_or("lines")?;
    for line in lines.split(';') {
        let answer = answer(rt.alloc(), line)?;
        assert!(rt; answer.as_str() == "Refused", "{line}");
    }
    Ok(())
}

/// Lines parted by `;`, each with its job after `=>`, as Debug prints it.
#[test]
fn lines_with_a_job(rt: HostRuntime) -> Result<(), Fail> {
    let rows = str::from_utf8(
        b"ol run - => Run { translation: Two, workers: 4, fuel: 200000, heads: 4096, name: Word { \
        text: \"-\" } };\
        ol run --fuel=007 -- - => Run { translation: Two, workers: 4, fuel: 7, heads: 4096, name: \
        Word { text: \"-\" } };\
        ol run a --workers 64 --heads=1 => Run { translation: Two, workers: 64, fuel: 200000, \
        heads: 1, name: Word { text: \"a\" } };\
        ol run --fuel 0 -- --fuel => Run { translation: Two, workers: 4, fuel: 0, heads: 4096, \
        name: Word { text: \"--fuel\" } };\
        run run run => Run { translation: Two, workers: 4, fuel: 200000, heads: 4096, name: Word \
        { text: \"run\" } };\
        ol run --translation 1 - => Run { translation: One, workers: 4, fuel: 200000, heads: \
        4096, name: Word { text: \"-\" } };\
        ol run --translation 02 - => Run { translation: Two, workers: 4, fuel: 200000, heads: \
        4096, name: Word { text: \"-\" } };\
        ol walk - => Walk { translation: Two, edges: 100000, heads: 4096, name: Word { text: \
        \"-\" } };\
        ol walk --edges 10000000 a.lam --heads=100000 => Walk { translation: Two, edges: \
        10000000, heads: 100000, name: Word { text: \"a.lam\" } };\
        ol walk - --translation=1 => Walk { translation: One, edges: 100000, heads: 4096, name: \
        Word { text: \"-\" } };\
        ol view - => View { translation: Two, after: 0, name: Word { text: \"-\" } };\
        ol view --after=8000000 -- -x => View { translation: Two, after: 8000000, name: Word { \
        text: \"-x\" } };\
        ol view view --after 00000009 => View { translation: Two, after: 9, name: Word { text: \
        \"view\" } };\
        ol view --translation 01 - => View { translation: One, after: 0, name: Word { text: \"-\" \
        } };\
        ol trace - => Trace { translation: Two, workers: 4, fuel: 200000, name: Word { text: \
        \"-\" } };\
        ol trace --fuel 0 a --workers=64 => Trace { translation: Two, workers: 64, fuel: 0, name: \
        Word { text: \"a\" } };\
        ol trace --translation 1 --fuel 3 - => Trace { translation: One, workers: 4, fuel: 3, \
        name: Word { text: \"-\" } };\
        ol check a b => Check { translation: Two, term: Word { text: \"a\" }, journal: Word { \
        text: \"b\" } };\
        ol check a - => Check { translation: Two, term: Word { text: \"a\" }, journal: Word { \
        text: \"-\" } };\
        ol check - b => Check { translation: Two, term: Word { text: \"-\" }, journal: Word { \
        text: \"b\" } };\
        ol check b - => Check { translation: Two, term: Word { text: \"b\" }, journal: Word { \
        text: \"-\" } };\
        ol check -- --a -b => Check { translation: Two, term: Word { text: \"--a\" }, journal: \
        Word { text: \"-b\" } };\
        ol check a -- -- => Check { translation: Two, term: Word { text: \"a\" }, journal: Word { \
        text: \"--\" } };\
        ol check a a -- => Check { translation: Two, term: Word { text: \"a\" }, journal: Word { \
        text: \"a\" } };\
        ol check a --translation 1 b => Check { translation: One, term: Word { text: \"a\" }, \
        journal: Word { text: \"b\" } };\
        ol check --translation=1 a -- b => Check { translation: One, term: Word { text: \"a\" }, \
        journal: Word { text: \"b\" } };\
        ol gen 0 => Gen { translation: Two, run: false, k: 0 };\
        ol gen 3 => Gen { translation: Two, run: false, k: 3 };\
        ol gen 10 --run => Gen { translation: Two, run: true, k: 10 };\
        ol gen --run 007 => Gen { translation: Two, run: true, k: 7 };\
        ol gen -- 3 => Gen { translation: Two, run: false, k: 3 };\
        ol gen 00000003 -- => Gen { translation: Two, run: false, k: 3 };\
        ol gen --run -- 3 => Gen { translation: Two, run: true, k: 3 };\
        ol gen --run 3 -- => Gen { translation: Two, run: true, k: 3 };\
        ol gen 3 --run -- => Gen { translation: Two, run: true, k: 3 };\
        ol gen --run --translation=2 3 => Gen { translation: Two, run: true, k: 3 };\
        ol gen --run 3 --translation 1 => Gen { translation: One, run: true, k: 3 };\
        ol gen --translation 1 -- 3 => Gen { translation: One, run: false, k: 3 };\
        ol demand - => Demand { translation: Two, fuel: 200000, heads: 4096, name: Word { text: \
        \"-\" } };\
        ol demand --fuel=0 a --heads 1 --translation 1 => Demand { translation: One, fuel: 0, \
        heads: 1, name: Word { text: \"a\" } };\
        ol demand demand --fuel 8000000 -- => Demand { translation: Two, fuel: 8000000, heads: \
        4096, name: Word { text: \"demand\" } };\
        ol demand --heads=100000 -- --heads => Demand { translation: Two, fuel: 200000, heads: \
        100000, name: Word { text: \"--heads\" } };\
        ol certify - => Certify { translation: Two, steps: 1000, workers: 4, fuel: 200000, heads: \
        4096, name: Word { text: \"-\" } };\
        ol certify --steps 0 --workers 1 --fuel 8000000 a --heads 100000 --translation 1 => \
        Certify { translation: One, steps: 0, workers: 1, fuel: 8000000, heads: 100000, name: \
        Word { text: \"a\" } };\
        ol certify certify --steps=10000 => Certify { translation: Two, steps: 10000, workers: 4, \
        fuel: 200000, heads: 4096, name: Word { text: \"certify\" } };\
        ol net - => Net { translation: Two, from_term: false, workers: 4, fuel: 200000, name: \
        Word { text: \"-\" } };\
        ol net --from-term a => Net { translation: Two, from_term: true, workers: 4, fuel: \
        200000, name: Word { text: \"a\" } };\
        ol net a --from-term --fuel 0 --workers=64 --translation 1 => Net { translation: One, \
        from_term: true, workers: 64, fuel: 0, name: Word { text: \"a\" } };\
        ol net -- --from-term => Net { translation: Two, from_term: false, workers: 4, fuel: \
        200000, name: Word { text: \"--from-term\" } };\
        ol equal a b => Equal { translation: Two, workers: 4, fuel: 200000, heads: 4096, first: \
        Word { text: \"a\" }, second: Word { text: \"b\" } };\
        ol equal - b => Equal { translation: Two, workers: 4, fuel: 200000, heads: 4096, first: \
        Word { text: \"-\" }, second: Word { text: \"b\" } };\
        ol equal b - => Equal { translation: Two, workers: 4, fuel: 200000, heads: 4096, first: \
        Word { text: \"b\" }, second: Word { text: \"-\" } };\
        ol equal a a => Equal { translation: Two, workers: 4, fuel: 200000, heads: 4096, first: \
        Word { text: \"a\" }, second: Word { text: \"a\" } };\
        ol equal --workers 3 --fuel=9 a --heads 1 b --translation=1 => Equal { translation: One, \
        workers: 3, fuel: 9, heads: 1, first: Word { text: \"a\" }, second: Word { text: \"b\" } }"
            .as_slice(),
    )
    .ok()
    .ok_or("rows")?;
    for row in rows.split(';') {
        let (line, wanted) = row.split_once(" => ").ok_or("no row")?;
        let answer = answer(rt.alloc(), line)?;
        assert!(rt; answer.as_str() == wanted, "{answer}");
    }
    Ok(())
}
