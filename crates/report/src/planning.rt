// Planning the calls that answer a sheet: the worst of each line form.
ghost use Rattle.std.specs.Prelude.{◌≡◌, ℕ, ◌<◌, List, [], ◌∷◌, ◌++◌, map, length, IfOk, vec_len};
ghost use Rattle.names.specs.Kept.{bytes_of};
ghost use Rattle.network.specs.Drafts.{sealed};
ghost use Rattle.network.specs.Sketches.{name_bytes};
ghost use Rattle.report.specs.Answers.{line_forms};
ghost use Rattle.report.specs.Planned.{named_one, OneMore, Adds, PlansFor};

use crate::plan::{Buffers, Plan};
use lines::limits::{MAX_INPUTS, MAX_LINES};
use names::name::Name;
use network::network::Network;
use settling::latest::Latest;
use std::alloc::{AllocError, Global};
use turns::calls::Call;

impl Buffers {
    fn new(heap: Global) -> Result<Buffers, AllocError> {
        let vector = vec![in heap; 0; MAX_INPUTS]?;
        let free = Latest {
            zero: None,
            one: None,
        };
        let work = vec![in heap; free; MAX_LINES]?;
        Ok(Buffers { vector, work })
    }
}

impl Plan {
    // No call yet, and buffers for as many as there can be lines.
    pub(crate) fn new(heap: Global) -> Result<Plan, AllocError>
        ensures { IfOk result (λ plan. vec_len plan.calls ≡ 0) }
    {
        let mut spare = Vec::new(heap);
        spare.try_resize_with(MAX_LINES, || Buffers::new(heap))?;
        let calls = Vec::with_capacity(heap, MAX_LINES)?;
        let names = Vec::with_capacity(heap, MAX_LINES)?;
        Ok(Plan {
            spare,
            calls,
            names,
        })
    }

    // One call more: the worst of the line of that name.
    fn ask(&mut self, line: usize, name: Name)
        requires { 0 < vec_len self.old.spare }
        ensures { OneMore self.old self.new line (bytes_of name) }
    {
        let Some(Buffers { vector, work }) = self.spare.pop() else {
            unreachable()
        };
        self.calls.push_reserved(Call::Worst { line, vector, work });
        self.names.push_reserved(name);
    }

    // The worst of the line, where it has a name.
    fn ask_named(&mut self, line: usize, name: Option<Name>)
        requires { 0 < vec_len self.old.spare }
        ensures { Adds self.old self.new (named_one line (name_bytes name)) }
    {
        if let Some(name) = name {
            self.ask(line, name);
        }
    }

    // The worst of each line form of a network.
    pub(crate) fn ask_all(&mut self, network: &Network)
        requires { vec_len self.old.calls ≡ 0 }
        ensures { PlansFor (line_forms (sealed network.now)) self.new }
    {
        // by number: a call asks for a line by its number
        for line in network.input_count()..network.line_count() {
            self.ask_named(line, network.name_of(line));
        }
    }
}
