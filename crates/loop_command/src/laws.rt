//! Laws over the definitions.
ghost use Rattle.std.specs.Prelude.{◌≡◌, ℕ, ◌*◌, ◌<◌, ◌≤◌, All, Contains, List, length};
ghost use Rattle.line_base.specs.Thinned.{AreLost};
ghost use Rattle.line_base.specs.declared.edge.Edge.{Edge};
ghost use Rattle.receiver_core.specs.declared.message.Message.{Message};
ghost use Rattle.sensor_script.specs.Scripts.{ScriptState};
ghost use Rattle.loop_command.specs.LostRuns.{lost_run, lost_runs};
ghost use Rattle.sensor_script.specs.Scripted.{IsScripted};

/// Does nothing; its contract is a law. The runs that a loop loses of its edges may be lost of them. There is one of each
/// number from 1 on that times 1,000 is below the number of edges, and no other.
pub fn lost_runs_lie_within()
    ensures within { (edges : List Edge) → AreLost edges (lost_runs (length edges)) }
    ensures each { (edges number : ℕ) → 1 ≤ number → 1000 * number < edges → Contains (lost_runs edges) (lost_run edges number) }
    ensures alone { (edges : ℕ) → All (λ run. (number : ℕ) × (1 ≤ number) × (1000 * number < edges) × (run ≡ lost_run edges number)) (lost_runs edges) }
{}

/// Does nothing; its contract is a law. A script gives messages up to the counted one of any number, and these alone.
pub fn scripts_give_messages()
    ensures given { (state : ScriptState) (count : ℕ) → (messages : List Message) × IsScripted state count messages }
    ensures alone { (state : ScriptState) (count : ℕ) (messages others : List Message) → IsScripted state count messages → IsScripted state count others → messages ≡ others }
{}
