// The top call on objects in memory: faults, words, and what is too large for a script.
ghost use Rattle.std.specs.Prelude.{None};

use crate::top;
use rw_io::{Failed, MemorySink, MemorySource, NoDisk, NoDoors, Sink, Source};
use std::alloc::Global;
use std::process::Abort;
use std::test::Fail;

// Calls the top call with the word `batch`, and tells the status.
fn answer<I: Source, O: Sink>(alloc: Global, input: &mut I, output: &mut O) -> Result<u8, Fail> {
    let mut words = Vec::new(alloc);
    words.push(String::from_str(alloc, "batch")?)?;
    let mut disk = NoDisk::new();
    let mut doors = NoDoors::new();
    Ok(top(alloc, &words, input, output, &mut disk, &mut doors))
}

// A text so many times.
fn repeated(alloc: Global, times: u32, text: &str) -> Result<String, Fail> {
    let mut all = String::new(alloc);
    for _ in 0..times {
        all.push_str(text)?;
    }
    Ok(all)
}

// A formula of 2 to the power k parts less 1.
fn balanced(alloc: Global, k: u32) -> Result<String, Fail> {
    let mut text = String::from_str(alloc, "true")?;
    for _ in 1..k {
        text = format!(in alloc; "({text}) and ({text})")?;
    }
    Ok(text)
}

// The last bytes of the output where a line is answered so often.
fn ends_with(
    rt: &impl Abort,
    alloc: Global,
    times: u32,
    line: &str,
    end: &str,
) -> Result<(), Fail> {
    let script = repeated(alloc, times, line)?;
    let mut input = MemorySource::new(alloc, script.as_bytes(), 100000, &[])?;
    let mut output = MemorySink::new(alloc, 1000000, 100000, &[])?;
    answer(alloc, &mut input, &mut output)?;
    assert!(rt; output.written().ends_with(end.as_bytes()));
    Ok(())
}

#[test]
fn a_project_takes_65536_edits(rt: HostRuntime) -> Result<(), Fail> {
    ends_with(
        &rt,
        rt.alloc(),
        65537,
        "step main skip\n",
        "ok 65536\nE7 limit edits 65536\n",
    )
}

#[test]
fn lines_of_edits_have_16777216_bytes(rt: HostRuntime) -> Result<(), Fail> {
    let alloc = rt.alloc();
    let spaces = repeated(alloc, 65522, " ")?;
    let line = format!(in alloc; "step main skip{spaces}\n")?;
    ends_with(
        &rt,
        alloc,
        257,
        line.as_str(),
        "ok 256\nE7 limit bytes 16777216\n",
    )
}

// The place of a node: 1 is the root's, and those of its kids are twice as much and one more. There are fewer than 2,048.
fn push_place(text: &mut String, node: u32) -> Result<(), Fail> {
    text.push_str("main")?;
    for nodes in [1024, 512, 256, 128, 64, 32, 16, 8, 4, 2, 1] {
        let above: u32 = node.checked_div(nodes).unwrap_or(0);
        if above > 1 {
            text.push_str(if above % 2 == 0 { "/1" } else { "/2" })?;
        }
    }
    Ok(())
}

// A request with a place.
fn push_request(text: &mut String, word: &str, node: u32, rest: &str) -> Result<(), Fail> {
    text.push_str(word)?;
    push_place(text, node)?;
    text.push_str(rest)?;
    Ok(text.push_str("\n")?)
}

#[test]
fn a_project_weighs_at_most_2000000(rt: HostRuntime) -> Result<(), Fail> {
    let alloc = rt.alloc();
    let most = balanced(alloc, 10)?;
    let mut script = String::from_str(alloc, "var x : int\n")?;
    let sequence = format!(in alloc; " seq not ({most})")?;
    for node in 1..488 {
        push_request(&mut script, "step ", node, sequence.as_str())?;
    }
    // 63 + 1 + (15 + 1 + (1 + 7)) parts
    let (most_of_it, some, few) = (
        balanced(alloc, 6)?,
        balanced(alloc, 4)?,
        balanced(alloc, 3)?,
    );
    let weaker = format!(in alloc; " weaken ({most_of_it}) and (({some}) and not ({few}))")?;
    push_request(&mut script, "step ", 488, weaker.as_str())?;
    let root = format!(in alloc; "root x:[not ({most}), not ({most})]\n")?;
    script.push_str(root.as_str())?;
    push_request(&mut script, "step ", 489, " skip")?;
    push_request(&mut script, "step ", 488, " open")?;
    push_request(&mut script, "step ", 489, " skip")?;
    script.push_str("root x:[true, true]\n")?;
    let end = "ok 489\nok 490\nE8 full weight 2002048\nok 491\nok 492\nok 493\n";
    ends_with(&rt, alloc, 1, script.as_str(), end)
}

#[test]
fn knows_its_words(rt: HostRuntime) -> Result<(), Fail> {
    let alloc = rt.alloc();
    let two = vec![in alloc;
        String::from_str(alloc, "batch")?,
        String::from_str(alloc, "x")?,
    ]?;
    for words in [two, Vec::new(alloc)] {
        let mut input = MemorySource::new(alloc, b"status\n", 9, &[])?;
        let mut output = MemorySink::new(alloc, 1000, 9, &[])?;
        let mut disk = NoDisk::new();
        let mut doors = NoDoors::new();
        let status = top(
            alloc,
            &words,
            &mut input,
            &mut output,
            &mut disk,
            &mut doors,
        );
        assert_eq!(rt; status, 2);
        assert_eq!(rt; output.written().len(), 0);
    }
    Ok(())
}

#[test]
fn tells_faults(rt: HostRuntime) -> Result<(), Fail> {
    let alloc = rt.alloc();
    for (read_fails, write_fails, room, status, replies) in [
        (1, 9, 1000, 3, ""),
        (2, 9, 1000, 3, "ok 1\n"),
        (9, 1, 1000, 4, ""),
        (9, 2, 1000, 4, "ok 1\n"),
        (9, 9, 7, 4, "ok 1\nok"),
    ] {
        let mut input = MemorySource::new(alloc, b"var a : int\nvar b : int", 9, &[read_fails])?;
        let mut output = MemorySink::new(alloc, room, 9, &[write_fails])?;
        let given = answer(alloc, &mut input, &mut output)?;
        assert_eq!(rt; given, status, "at {read_fails} {write_fails}");
        assert_eq!(rt;
            output.written(),
            replies.as_bytes(),
            "at {read_fails} {write_fails}"
        );
    }
    Ok(())
}

#[test]
fn stops_at_a_long_line(rt: HostRuntime) -> Result<(), Fail> {
    let alloc = rt.alloc();
    for (length, status, replies) in [(65_536, 1, "ok 1\nE1 syntax 0\n"), (65_537, 7, "ok 1\n")] {
        let mut script = b"var a : int\n".to_vec(alloc)?;
        script.extend_from_slice(&vec![in alloc; b'a'; length]?)?;
        let mut input = MemorySource::new(alloc, &script, 9, &[])?;
        let mut output = MemorySink::new(alloc, 1000, 9, &[])?;
        let given = answer(alloc, &mut input, &mut output)?;
        assert_eq!(rt; given, status, "at {length}");
        assert_eq!(rt; output.written(), replies.as_bytes(), "at {length}");
    }
    Ok(())
}

// Gives one byte a call.
#[derive(Drop)]
struct Slow {
    inner: MemorySource,
}

impl Source for Slow {
    ghost left = { λ s. None };

    ghost taken = { λ s. None };

    ghost read_faults = { λ s. s.inner.faults };

    ghost read_keeps = { λ s. (None, 0) };

    fn read(&mut self, into: &mut [u8]) -> Result<usize, Failed> {
        self.inner.read(&mut into[..1])
    }
}

#[test]
fn takes_bytes_one_by_one(rt: HostRuntime) -> Result<(), Fail> {
    let alloc = rt.alloc();
    let mut input = Slow {
        inner: MemorySource::new(alloc, b"var a : int\nb\nvar c : int", 99, &[])?,
    };
    let mut output = MemorySink::new(alloc, 1000, 9, &[])?;
    assert_eq!(rt; answer(alloc, &mut input, &mut output)?, 1);
    assert_eq!(rt; output.written(), b"ok 1\nE1 syntax 0\nok 2\n".as_slice());
    Ok(())
}

#[test]
fn a_million_lines_are_written_in_few_calls(rt: HostRuntime) -> Result<(), Fail> {
    let alloc = rt.alloc();
    for (lines, status, calls) in [
        (1_000_000, 1, 250),
        (1_000_000, 4, 100),
        (1_000_001, 7, 250),
    ] {
        let mut script = Vec::new(alloc);
        for _ in 0..lines {
            script.extend_from_slice(b"x\n")?;
        }
        let mut input = MemorySource::new(alloc, &script, 200, &[])?;
        let mut output = MemorySink::new(alloc, 12_000_000, calls, &[])?;
        let given = answer(alloc, &mut input, &mut output)?;
        assert_eq!(rt; given, status, "at {lines}");
        assert!(rt; status == 4 || output.written().len() == 12_000_000);
    }
    Ok(())
}
