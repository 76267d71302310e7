use crate::house;
use conditions::{WeekClock, active_roles};
use lawful::check_draft;
use tables::{Draft, Relation};

// A change that spoils the draft: one pair more in one relation.
struct Spoiled {
    words: &'static str,
    relation: Relation,
    left: u32,
    right: u32,
}

const SPOILED: [Spoiled; 3] = [
    Spoiled {
        words: "kid_any in the role task of home too",
        relation: Relation::RoleTaskRolePairs,
        left: house::KID_ANY,
        right: house::HOME,
    },
    Spoiled {
        words: "kid_leisure assigned to kitchen",
        relation: Relation::RolePairAssignment,
        left: house::KID_LEISURE,
        right: house::KITCHEN,
    },
    Spoiled {
        words: "kid_any assigned to kitchen",
        relation: Relation::RolePairAssignment,
        left: house::KID_ANY,
        right: house::KITCHEN,
    },
];

fn show_check(rt: &impl Print, words: &str, draft: &Draft) -> anyhow::Result<()> {
    match check_draft(draft) {
        Ok(()) => println!(rt; "  {words}: may open")?,
        Err(refusal) => println!(rt; "  {words}: refused, {}", refusal.code())?,
    }
    Ok(())
}

// Whether the draft may open as it is, and with each change that spoils it.
pub fn openings(rt: &impl Print, draft: &Draft) -> anyhow::Result<()> {
    show_check(rt, "as it is", draft)?;
    for change in &SPOILED {
        let mut spoiled = *draft;
        spoiled.relate(change.relation, change.left, change.right)?;
        show_check(rt, change.words, &spoiled)?;
    }
    Ok(())
}

// Minutes of the week, which begins with a Monday.
const NOON: u32 = 12 * 60;

const SIX: u32 = 18 * 60;

const EIGHT: u32 = 20 * 60;

const TEN: u32 = 22 * 60;

fn show_active(
    rt: &impl Print,
    words: &str,
    draft: &Draft,
    clock: &WeekClock,
) -> anyhow::Result<()> {
    let roles = active_roles(draft.entries.listed(), clock);
    let leisure = if roles.contains(house::LEISURE) {
        "leisure is active"
    } else {
        "no environment role is active"
    };
    println!(rt; "  {words}: {leisure}")?;
    Ok(())
}

// Which environment roles are active on Monday at noon and in the evening, by a clock with a window for the evening.
pub fn activity(rt: &impl Print, draft: &Draft) -> anyhow::Result<()> {
    let mut clock = WeekClock::new();
    clock.set_window(house::EVENING, SIX, TEN)?;
    for (words, minute) in [("at noon", NOON), ("at eight in the evening", EIGHT)] {
        clock.set_minute(minute)?;
        show_active(rt, words, draft, &clock)?;
    }
    Ok(())
}
