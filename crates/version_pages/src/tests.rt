//! What no clause says: that there is memory for each call, and what threads do beside one another.

ghost use Rattle.std.specs.Prelude.{◌<◌};
ghost use Rattle.text_parts.specs.Names.{IsName};

use super::*;
use std::process::Abort;
use std::test::Fail;
use std::thread::{Threads, join};

/// What was put: a name, and its value. The first two pages, the last, and places at both ends of a page are among them.
static PUTS: [(u32, u32); 10] = [
    (1, 10),
    (999, 20),
    (1000, 30),
    (1001, 40),
    (999_999, 50),
    (45, 60),
    (999, 70),
    (500_000, 80),
    (1, 90),
    (999_000, 100),
];

// The value that the last of the first `count` puts gave a name, by a scan.
fn last_put(count: usize, name: u32) -> Option<u32> {
    let mut last = None;
    for (at, &(put, value)) in PUTS.iter().enumerate() {
        if at < count && put == name {
            last = Some(value);
        }
    }
    last
}

// The least name above `after` among the first `count` puts, by a scan.
fn least_put_above(count: usize, after: u32) -> Option<u32> {
    let mut least = None;
    for (at, &(put, _)) in PUTS.iter().enumerate() {
        if at < count && put > after && least.is_none_or(|name| put < name) {
            least = Some(put);
        }
    }
    least
}

// The empty map, and after it the version that each put made.
fn versions(rt: &impl Abort, alloc: Global) -> Result<Vec<Pages<u32>>, AllocError> {
    let mut versions = Vec::new(alloc);
    let mut newest = Pages::empty(alloc)?;
    for &(name, value) in &PUTS {
        assert!(rt; 1 <= name && name <= 999_999);
        let next = newest.put(name, value)?;
        versions.push(newest)?;
        newest = next;
    }
    versions.push(newest)?;
    Ok(versions)
}

// The same versions, each shared before the next one is written in its place: the first of two writes finds a page that the shared
// one has too, and the second one its own.
fn versions_written_in_place(
    rt: &impl Abort,
    alloc: Global,
) -> Result<Vec<Pages<u32>>, AllocError> {
    let mut versions = Vec::new(alloc);
    let mut newest = Pages::empty(alloc)?;
    for &(name, value) in &PUTS {
        assert!(rt; 1 <= name && name <= 999_999);
        versions.push(newest.share()?)?;
        newest = newest.with(name, value.wrapping_add(1))?.with(name, value)?;
    }
    versions.push(newest)?;
    Ok(versions)
}

#[test]
fn every_version_answers_as_before(rt: HostRuntime) -> Result<(), Fail> {
    let put = versions(&rt, rt.alloc())?;
    let written = versions_written_in_place(&rt, rt.alloc())?;
    assert_versions(&rt, &put);
    assert_versions(&rt, &written);
    Ok(())
}

static NAMES: [u32; 13] = [
    1, 2, 45, 998, 999, 1000, 1001, 1002, 500_000, 998_999, 999_000, 999_998, 999_999,
];

// Whether a version has what the first `count` puts gave a name.
fn answers(version: &Pages<u32>, count: usize, name: u32) -> bool
    requires { IsName name }
{
    version.get(name).copied() == last_put(count, name)
        && version.next_name(name) == least_put_above(count, name)
}

// Each version has what the puts up to it gave.
fn assert_versions(rt: &impl Abort, versions: &[Pages<u32>]) {
    assert_eq!(rt; versions.len(), 11);
    for (count, version) in versions.iter().enumerate() {
        for &name in &NAMES {
            assert!(rt; 1 <= name && name <= 999_999);
            assert!(rt; answers(version, count, name), "{name} after {count} puts");
        }
        assert_eq!(rt;
            version.next_name(0),
            least_put_above(count, 0),
            "after {count} puts"
        );
    }
}

static SPARSE: [u32; 4] = [999_999, 12_000, 3, 11_999];

static ASCENDING: [Option<u32>; 5] = [Some(3), Some(11_999), Some(12_000), Some(999_999), None];

#[test]
fn walks_a_sparse_map(rt: HostRuntime) -> Result<(), Fail> {
    let mut pages = Pages::empty(rt.alloc())?;
    for &name in &SPARSE {
        assert!(rt; 1 <= name && name <= 999_999);
        pages = pages.put(name, name)?;
    }
    let mut after = 0;
    for &want in &ASCENDING {
        assert!(rt; after <= 999_999);
        let next = pages.next_name(after);
        assert_eq!(rt; next, want, "above {after}");
        after = next.unwrap_or(after);
    }
    Ok(())
}

#[test]
fn shares_a_map_of_texts(rt: HostRuntime) -> Result<(), Fail> {
    let one = Pages::empty(rt.alloc())?.put(7, format!(in rt.alloc(); "seven")?)?;
    let same = one.share()?;
    let next = one.put(7, format!(in rt.alloc(); "VII")?)?;
    assert_eq!(rt; same.get(7).map(|text| text.as_str()), Some("seven"));
    assert_eq!(rt; one.get(7).map(|text| text.as_str()), Some("seven"));
    assert_eq!(rt; next.get(7).map(|text| text.as_str()), Some("VII"));
    assert_eq!(rt;
        Arc::strong_count(&one.table),
        2,
        "`share` made another owner, and `put` a table of its own"
    );
    Ok(())
}

// The version after `count` puts into names from 1 on, each of ten times its name.
fn tenfold(start: &Pages<u32>, count: u32) -> Result<Pages<u32>, AllocError>
    requires { count < 10000 }
{
    let mut newest = start.share()?;
    for name in 1..=count {
        newest = newest.put(name, 10 * name)?;
    }
    Ok(newest)
}

// How many of the names from 1 to `count` have themselves as value.
fn plain(pages: &Pages<u32>, count: u32) -> u32
    requires { count < 10000 }
{
    let mut plain = 0u32;
    for name in 1..=count {
        if pages.get(name) == Some(&name) {
            plain = plain.wrapping_add(1);
        }
    }
    plain
}

#[test]
fn reads_an_old_version_beside_new_ones(rt: HostRuntime) -> Result<(), Fail> {
    let mut old = Pages::empty(rt.alloc())?;
    for name in 1..=2500 {
        old = old.put(name, name)?;
    }
    let (newest, read) = join(&rt, || tenfold(&old, 2500), || plain(&old, 2500));
    let newest = newest?;
    assert_eq!(rt; read, 2500);
    assert_eq!(rt; plain(&old, 2500), 2500);
    assert_eq!(rt; plain(&newest, 2500), 0);
    assert_eq!(rt; newest.get(2500), Some(&25_000));
    Ok(())
}

// Two threads hold versions of a map of any values that can be shared and sent.
fn next_names<T: Drop + Send + Sync>(
    rt: &impl Threads,
    pages: &Pages<T>,
) -> (Option<u32>, Result<Pages<T>, AllocError>) {
    let (shared, next) = join(rt, || pages.share(), || pages.next_name(0));
    (next, shared)
}

#[test]
fn shares_between_threads(rt: HostRuntime) -> Result<(), Fail> {
    let pages = Pages::empty(rt.alloc())?.put(5, format!(in rt.alloc(); "five")?)?;
    let (next, shared) = next_names(&rt, &pages);
    assert_eq!(rt; next, Some(5));
    assert_eq!(rt; shared?.get(5).map(|text| text.as_str()), Some("five"));
    Ok(())
}
