// A packet: what becomes of it, and its way through the parts of the engine.
ghost use Rattle.std.specs.Prelude.{◌≡◌, ◌≤◌, ◌<◌, ◌+◌, true, false, [], is_some, length};
ghost use Rattle.npf_connections.specs.Said.{Does};
ghost use Rattle.npf_connections.specs.Stay.{IsIn, IsOut};
ghost use Rattle.npf_flow.specs.Flows.{flow_law};
ghost use Rattle.npf_packet.specs.declared.decoded.Decoded.TheVariants.{Ip};
ghost use Rattle.npf_packet.specs.Decoder.{Decodes};
ghost use Rattle.npf_publish.specs.ConfReader.{reader_range};
ghost use Rattle.npf_ruleset.specs.Configuration.{configuration};
ghost use Rattle.npf_engine.specs.Answer.{Answers, AnswersUnder};
ghost use Rattle.npf_engine.specs.Arrival.{arg_of, arrival};
ghost use Rattle.npf_engine.specs.Handles.{Handles, configurations};
ghost use Rattle.npf_engine.specs.Outcome.{lacks_node, passes, sent_of};

use crate::answer::Answer;
use crate::connection::{KeyPair, find_either};
use crate::crossing::{Crossing, arg_of};
use crate::gateway::find_quoted;
use crate::open::{Passed, answer_passed};
use crate::outcome::Outcome;
use crate::rules::{mapping_of, ruling_of};
use crate::send::rewrite;
use npf_connections::Connections;
use npf_flow::{FlowArg, FlowLaw};
use npf_key::key_of;
use npf_packet::{Decoded, decode};
use npf_publish::ConfReader;
use npf_rewrite::decoded_has_room;
use npf_ruleset::Config;
use npf_types::limits::MAX_PACKET_BYTES;
use npf_types::{Decision, Dir, IfId, Link};
use std::sync::Wait;

/// The configuration of this number.
#[derive(Clone, Copy, Drop)]
pub(crate) struct NumberedConfig<'a> {
    pub(crate) number: u64,
    pub(crate) config: &'a Config,
}

/// Handles the packet of the number `n`, from 1, that crosses an interface at the time `now`, in nanoseconds, and answers its outcome.
///
/// A packet that passes is normalised and translated in place; all others keep their bytes, of which there are at most
/// `MAX_PACKET_BYTES`. The pass isn't entered before and after, and owns a reader place. The numbers that the reader may give are places of
/// `configs`. It takes no memory.
pub fn packet<R: Wait, C: Connections<FlowLaw>>(
    rt: &R,
    conns: &C,
    pass: &mut C::Pass,
    reader: &mut ConfReader,
    configs: &[Config],
    n: u64,
    now: u64,
    link: Link,
    ifid: IfId,
    dir: Dir,
    bytes: &mut [u8],
) -> Outcome
    requires out { IsOut flow_law (C.fits conns.now) C.view pass.old }
    requires place { 1 ≤ (C.view pass.old).places }
    requires short { length bytes.old ≤ MAX_PACKET_BYTES }
    requires numbers { (reader_range reader.old).last < length configs.now }
    ensures out { IsOut flow_law (C.fits conns.now) C.view pass.new }
    ensures handles { Handles (configurations configs.now) (C.view pass.old) (C.view pass.new) reader.old reader.new (arrival n now link ifid dir bytes.old) result (sent_of result bytes.new) }
    ensures kept { passes result ≡ false → bytes.new ≡ bytes.old }
    ensures sweep { lacks_node result ≡ true → (C.view pass.old).sweeps + 1 ≤ (C.view pass.new).sweeps }
{
    let facts = match decode(link, bytes) {
        Decoded::Skip => return Outcome::Skip,
        Decoded::Malformed { why, at } => return Outcome::Malformed { why, at },
        Decoded::Ip(facts) => facts,
    };
    let crossing = Crossing {
        number: n,
        time: now,
        link,
        ifid,
        dir,
        facts: &facts,
        bytes: &*bytes,
    };
    conns.enter(rt, pass);
    let answer = answer(rt, conns, pass, reader, configs, &crossing);
    conns.leave(rt, pass);
    decoded_has_room();
    rewrite(bytes, &facts, &answer.rewriting);
    answer.outcome
}

/// What becomes of a packet of IP: the live connection that it belongs to takes it, or, by the configuration that is read, that of what
/// it quotes, or the configuration decides.
#[inline(always)]
pub(crate) fn answer<R: Wait, C: Connections<FlowLaw>>(
    rt: &R,
    conns: &C,
    pass: &mut C::Pass,
    reader: &mut ConfReader,
    configs: &[Config],
    crossing: &Crossing,
) -> Answer
    requires inside { IsIn flow_law (C.fits conns.now) C.view pass.old }
    requires idle { (C.view pass.old).builds ≡ [] }
    requires numbers { (reader_range reader.old).last < length configs.now }
    requires decodes { Decodes crossing.now.link crossing.now.bytes.now (Ip crossing.now.facts.now) }
    ensures inside { IsIn flow_law (C.fits conns.now) C.view pass.new }
    ensures idle { (C.view pass.new).builds ≡ [] }
    ensures answers { Answers (configurations configs.now) (C.view pass.old) (C.view pass.new) reader.old reader.new crossing.now result }
    ensures passes { passes result.outcome ≡ is_some result.rewriting }
    ensures sweep { lacks_node result.outcome ≡ true → (C.view pass.old).sweeps + 1 ≤ (C.view pass.new).sweeps }
{
    let arg = arg_of(crossing.time, crossing.facts);
    let keys = KeyPair {
        own: key_of(crossing.facts, crossing.ifid),
        every: key_of(crossing.facts, IfId::EVERY),
    };
    if let Some(met) = find_either(rt, conns, pass, crossing.number, &keys, &arg) {
        return Answer::by_conn(&met);
    }
    let number = reader.read(rt);
    let asked = NumberedConfig {
        number,
        config: &configs[number as usize],
    };
    if let Some(met) = find_quoted(rt, conns, pass, crossing, asked.config.model()) {
        return Answer::by_quoted(&met);
    }
    answer_by_rules(rt, conns, pass, crossing, &arg, asked)
}

/// What a configuration makes of a packet that no connection took.
#[inline(always)]
fn answer_by_rules<R: Wait, C: Connections<FlowLaw>>(
    rt: &R,
    conns: &C,
    pass: &mut C::Pass,
    crossing: &Crossing,
    arg: &FlowArg,
    asked: NumberedConfig,
) -> Answer
    requires inside { IsIn flow_law (C.fits conns.now) C.view pass.old }
    requires idle { (C.view pass.old).builds ≡ [] }
    requires arg { arg.now ≡ arg_of crossing.now.time crossing.now.facts.now }
    requires decodes { Decodes crossing.now.link crossing.now.bytes.now (Ip crossing.now.facts.now) }
    ensures inside { IsIn flow_law (C.fits conns.now) C.view pass.new }
    ensures idle { (C.view pass.new).builds ≡ [] }
    ensures does { Does (C.view pass.old) (C.view pass.new) (AnswersUnder crossing.now asked.entry.number (configuration asked.entry.config.now) result (C.view pass.old) (C.view pass.new)) }
    ensures passes { passes result.outcome ≡ is_some result.rewriting }
    ensures sweep { lacks_node result.outcome ≡ true → (C.view pass.old).sweeps + 1 ≤ (C.view pass.new).sweeps }
{
    let Some(ruling) = ruling_of(asked.config, crossing) else {
        return Answer::unruled(asked.number);
    };
    match ruling.decision {
        Decision::Block(_) => Answer::blocked(asked.number, &ruling),
        Decision::Pass => {
            let passed = Passed {
                config: asked.number,
                ruling,
                mapping: mapping_of(asked.config, crossing),
            };
            answer_passed(rt, conns, pass, crossing, arg, &passed)
        }
    }
}
