// The table that the kept strings fix: which heading it has, and where the latest takeover of it begins.
#![tactic(auto)]

ghost use Rattle.std.specs.Prelude.{◌≡◌, ◌<◌};
ghost use Rattle.gathering_state.specs.State.{has_room};
ghost use Rattle.gathering_account.specs.Account.{heard};
ghost use Rattle.teaching_table.specs.Table.{begins_in, fixed_after, Versioned, FixedIn};

use section_reader::Heading;

// Does a section with this heading begin its table? It does if none is fixed, or an older version of it.
fn begins(fixed: Option<(Heading, usize)>, h: Heading) -> bool
    requires { Versioned fixed × (h.version < 256) }
    ensures { result ≡ begins_in fixed h }
{
    match fixed {
        None => true,
        Some((t, _from)) => gathering_tables::is_newer(t, h),
    }
}

// Which table is fixed after one more string, whose row stands at a place? "the gathering starts over with that section, if the store has
// room for its table"
fn fixed_after(
    fixed: Option<(Heading, usize)>,
    store: usize,
    s: &[u8],
    at: usize,
) -> Option<(Heading, usize)>
    requires { Versioned fixed }
    ensures { result ≡ fixed_after (has_room store) fixed at (heard s.now) }
{
    let Some(h) = teaching_questions::hear(s) else {
        return fixed;
    };
    if !begins(fixed, h) {
        return fixed;
    }
    if !gathering_state::has_room(store, h.last) {
        return fixed;
    }
    Some((h, at))
}

// Which table do the kept strings fix, where the quick gathering's store has so many bytes?
pub fn fixed_table(rows: &[u8], store: usize) -> Option<(Heading, usize)>
    ensures { FixedIn store rows.now result }
{
    let mut fixed = None;
    let mut rest = rows;
    while let Some((s, after)) = teaching_rows::split_row(rest) {
        fixed = fixed_after(fixed, store, s, rows.len() - rest.len());
        rest = after;
    }
    fixed
}
