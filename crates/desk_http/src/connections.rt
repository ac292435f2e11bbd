//! Serves connections one after another, one request each.
ghost use Rattle.std.specs.Prelude.{◌≡◌, MatchResult};
ghost use Rattle.desk_http.specs.Served.{ComesNext, HearsEach, NoneComes, ServesConnection, ServesConnections};
ghost use Rattle.desk_http.specs.Serving.{ServesRequest};

use crate::listening::Listening;
use crate::network_faults::NetworkFault;
use crate::serving::serve_one;
use desk_engine::laws::calls_hear_in_order;
use desk_store::Keeper;
use std::alloc::Global;

/// After this many failed accepts in a row no more connections are served.
const MOST_FAILED_ACCEPTS: u32 = 64;

/// Serves `connections` connections, one after another, one request each. A connection that fails after it was accepted counts. An accept
/// that fails doesn't.
///
/// # Errors
///
/// Returns `Accepts` after 64 failed accepts in a row. What was served before stays served.
#[tactic(auto, using(crate::proofs::Served::hears_each))]
pub fn serve_connections<K: Keeper, L: Listening>(
    alloc: Global,
    keeper: &mut K,
    listening: &mut L,
    connections: u32,
) -> Result<(), NetworkFault>
    ensures same { K.meaning.configuration keeper.new ≡ K.meaning.configuration keeper.old }
    ensures was_sound { K.meaning.sound keeper.new → K.meaning.sound keeper.old }
    ensures served { ServesConnections K.meaning L.meaning L.Reader.remaining L.Writer.contents connections
        keeper.old keeper.new listening.old listening.new result }

    // What the messages among them do to a store that represents a log, and what each connection is answered.
    ensures hears { HearsEach K.meaning L.meaning L.Reader.remaining L.Writer.contents connections
        keeper.old keeper.new listening.old listening.new result }
{
    calls_hear_in_order::<K>();
    serve_each(alloc, keeper, listening, connections)
}

/// Serves `connections` connections, one after another.
fn serve_each<K: Keeper, L: Listening>(
    alloc: Global,
    keeper: &mut K,
    listening: &mut L,
    connections: u32,
) -> Result<(), NetworkFault>
    ensures { ServesConnections K.meaning L.meaning L.Reader.remaining L.Writer.contents connections
        keeper.old keeper.new listening.old listening.new result }
{
    for _ in 0..connections {
        serve_next(alloc, keeper, listening)?;
    }
    Ok(())
}

/// Serves the next connection.
fn serve_next<K: Keeper, L: Listening>(
    alloc: Global,
    keeper: &mut K,
    listening: &mut L,
) -> Result<(), NetworkFault>
    ensures { MatchResult result
        (λ _. ServesConnection L.meaning L.Reader.remaining L.Writer.contents (ServesRequest K.meaning) keeper.old keeper.new listening.old listening.new)
        (λ _. (keeper.new ≡ keeper.old) × NoneComes L.meaning listening.old listening.new) }
{
    let (mut reader, mut writer) = accept_next(alloc, listening)?;
    let end = serve_one(alloc, keeper, &mut reader, &mut writer);
    // If the response can't be sent, nobody is left to report that to.
    let _ = listening.finish(reader, writer, end);
    Ok(())
}

/// Returns the next connection. Up to 63 accepts in a row may fail before it.
fn accept_next<L: Listening>(
    alloc: Global,
    listening: &mut L,
) -> Result<(L::Reader, L::Writer), NetworkFault>
    ensures { MatchResult result
        (λ connection. ComesNext L.meaning listening.old listening.new connection.0 connection.1)
        (λ _. NoneComes L.meaning listening.old listening.new) }
{
    for _ in 0..MOST_FAILED_ACCEPTS {
        if let Ok(connection) = listening.accept(alloc) {
            return Ok(connection);
        }
    }
    Err(NetworkFault::Accepts)
}
