#![tactic(auto)]

mod relation;
mod words;

use columns::column_list::ColumnList;
use constraints::constraints::Constraint;
use join_type::{JOIN_TYPES, JoinType};
use relation::Relation;

/// The number of an event among the columns of the event table.
const EVENT_NUMBER: u16 = 0;

/// The events as they are kept: one row for each event number.
fn events(rt: &HostRuntime) -> anyhow::Result<Relation> {
    let key = Constraint::PrimaryKey(ColumnList::new(&[EVENT_NUMBER])?);
    Relation::table(rt.alloc(), b"e", &[b"id", b"t"], &[key])
}

/// The recorder's windows, which have no key.
fn windows(rt: &HostRuntime) -> anyhow::Result<Relation> {
    Relation::table(rt.alloc(), b"w", &[b"day", b"start", b"end"], &[])
}

fn print_joins(rt: &HostRuntime, events: &Relation, windows: &Relation) -> anyhow::Result<()> {
    for record in JOIN_TYPES {
        let join_type = record.join_type;
        let joined = events.join(rt.alloc(), windows, join_type)?;
        println!(rt; "{join_type} join of e and w")?;
        println!(rt; "{joined}")?;
    }
    Ok(())
}

/// The question at handover: does the open event list have to merge?
fn print_answer(rt: &HostRuntime, events: &Relation, windows: &Relation) -> anyhow::Result<()> {
    let joined = events.join(rt.alloc(), windows, JoinType::Inner)?;
    println!(rt; "At handover: is the event number e.id unique after the Inner join of e and w?")?;
    if joined.is_unique(EVENT_NUMBER) {
        println!(rt; "Yes: no two rows have one event number, so the list need not merge.")?;
    } else {
        println!(rt; "No: the event number may repeat, so the list must merge.")?;
    }
    Ok(())
}

fn run(rt: &HostRuntime) -> anyhow::Result<()> {
    let events = events(rt)?;
    let windows = windows(rt)?;
    println!(rt; "Table e, the events")?;
    println!(rt; "{events}")?;
    println!(rt; "Table w, the recorder's windows")?;
    println!(rt; "{windows}")?;
    print_joins(rt, &events, &windows)?;
    print_answer(rt, &events, &windows)
}

fn main(rt: HostRuntime) -> anyhow::Result<()> {
    run(&rt)
}
