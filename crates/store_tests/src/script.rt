//! Scripts of a site, and what runs them.

use crate::conflicts::CONFLICTS;
use crate::crews::CREWS;
use crate::plans::PLANS;
use crate::site::{Crew, Site, text_of};
use crate::versions::{FULL, Sizes, VERSIONS};
use ground_model::Limits;
use std::alloc::Global;
use std::process::Abort;
use std::test::Fail;

/// Who asks, the line, and its reply.
pub(crate) type Exchange = (Crew, &'static str, &'static str);

/// What it shows, the exchanges to begin with, and those that show it.
pub(crate) type Script = (&'static str, &'static [Exchange], &'static [Exchange]);

fn written(
    rt: &impl Abort,
    alloc: Global,
    site: &mut Site,
    crew: Crew,
    line: &str,
) -> Result<String, Fail> {
    assert!(rt; line.len() < 100);
    let reply = site.reply(alloc, crew, line);
    text_of(alloc, &reply)
}

fn compare(
    rt: &impl Abort,
    alloc: Global,
    site: &mut Site,
    name: &str,
    exchange: &Exchange,
) -> Result<(), Fail> {
    let (crew, line, reply) = *exchange;
    let found = written(rt, alloc, site, crew, line)?;
    assert_eq!(rt; found.as_str(), reply, "{name}: {crew:?} {line}");
    Ok(())
}

fn compare_all(
    rt: &impl Abort,
    alloc: Global,
    site: &mut Site,
    name: &str,
    exchanges: &[Exchange],
) -> Result<(), Fail> {
    for exchange in exchanges {
        compare(rt, alloc, site, name, exchange)?;
    }
    Ok(())
}

/// A site of these limits after some exchanges, each of which is compared.
pub(crate) fn site_after(
    rt: &impl Abort,
    alloc: Global,
    limits: Limits,
    name: &str,
    exchanges: &[Exchange],
) -> Result<Site, Fail> {
    let mut site = Site::new(alloc, limits)?;
    compare_all(rt, alloc, &mut site, name, exchanges)?;
    Ok(site)
}

fn run(rt: &impl Abort, alloc: Global, script: &Script) -> Result<(), Fail> {
    let (name, before, exchanges) = *script;
    let mut site = site_after(rt, alloc, Limits::FULL, name, before)?;
    compare_all(rt, alloc, &mut site, name, exchanges)
}

fn limits_of(sizes: Sizes) -> Limits {
    let full = Limits::FULL;
    let (points, lines, places, log) = sizes;
    Limits {
        points: full.points.min(points),
        lines: full.lines.min(lines),
        places: full.places.min(places),
        vertices: full.vertices,
        log: full.log.min(log),
    }
}

fn run_full(rt: &impl Abort, alloc: Global) -> Result<(), Fail> {
    for (sizes, exchanges) in FULL {
        let _site = site_after(rt, alloc, limits_of(sizes), "small limits", exchanges)?;
    }
    Ok(())
}

fn run_all(rt: &impl Abort, alloc: Global, scripts: &[Script]) -> Result<(), Fail> {
    for script in scripts {
        run(rt, alloc, script)?;
    }
    Ok(())
}

#[test]
fn a_changed_mark_is_a_conflict(rt: HostRuntime) -> Result<(), Fail> {
    run_all(&rt, rt.alloc(), &CONFLICTS)
}

#[test]
fn crews_edit_side_by_side(rt: HostRuntime) -> Result<(), Fail> {
    run_all(&rt, rt.alloc(), &CREWS)
}

#[test]
fn a_held_version_outlives_edits(rt: HostRuntime) -> Result<(), Fail> {
    run_all(&rt, rt.alloc(), &VERSIONS)
}

#[test]
fn a_full_surface_refuses(rt: HostRuntime) -> Result<(), Fail> {
    run_full(&rt, rt.alloc())
}

#[test]
fn a_plan_lasts_until_it_is_committed(rt: HostRuntime) -> Result<(), Fail> {
    run_all(&rt, rt.alloc(), &PLANS)
}
