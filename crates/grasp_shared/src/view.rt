//! What a pass knows.

ghost use Rattle.std.specs.Prelude.{ℕ, List};
ghost use Rattle.std.specs.Borrow.{ftrue};
ghost use Rattle.std.specs.Coded.{coded_list};
ghost use Rattle.grasp_shared.specs.Calls.{Kept, Opened};
ghost use Rattle.grasp_shared.specs.Codes.{history_code, kept_code, opened_code};
ghost use Rattle.grasp_shared.specs.History.{History};

use std::marker::Model;

/// What a pass knows. No value of it is made.
pub struct View {
    pub ghost number: { ℕ },
    // 1, or 0 once the pass was joined.
    pub ghost live: { ℕ },
    // 1 while it is in its turn.
    pub ghost turn: { ℕ },
    // The core that the registry was opened with.
    pub ghost opened: { Opened } by { opened_code },
    // The history so far, and its own calls in it.
    pub ghost seen: { History } by { history_code },
    pub ghost mine: { History } by { history_code },
    // Of the root: how many passes were made, how many are out, and those that were joined.
    pub ghost made: { ℕ },
    pub ghost out: { ℕ },
    pub ghost joined: { List Kept } by { coded_list kept_code },
    // The two histories that the last join put together.
    pub ghost was: { History } by { history_code },
    pub ghost heard: { History } by { history_code },
}

impl Model for View {
    ghost also_owns = { λ _. ftrue };
}
