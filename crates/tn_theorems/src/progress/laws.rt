//! Laws of the threads of a session, whatever each does next.

ghost use Rattle.tn_theorems.specs.progress.ClientSteps as client;
ghost use Rattle.tn_theorems.specs.progress.ServerSteps as server;

/// A server's session never gets stuck: in each state that it can reach, and that is not its end, one of its
/// threads goes on by itself; or the network, the foreground job or a write is waited for, and then a thread
/// goes on once it is let.
pub fn a_server_never_gets_stuck()
    ensures { server.NeverGetsStuck }
{}

/// No put of an entry, and no credit for a piece of the network, ever waits for room.
pub fn no_put_of_an_entry_waits()
    ensures { server.PutsNeverWait }
{}

/// However fast the jobs in the background are, at most seven messages more wait for the terminal
/// than there are credits for their steps. So at most that number pass a key; and if the mailbox
/// has a place for each, no thread waits for one.
pub fn few_mails_wait()
    ensures { server.FewMailsWait }
{}

/// If nothing outside happens, the threads of a server's session come to rest, after at most 47
/// steps and four for each place of the mailbox.
pub fn a_server_comes_to_rest()
    ensures { server.ComesToRest }
{}

/// A client's session never gets stuck: in each state that it can reach, and that is not its end, one of its
/// threads goes on by itself; or the network, the user or the screen is waited for, and then a thread goes on
/// once it is let. Once the connection brings nothing more the user is not waited for.
pub fn a_client_never_gets_stuck()
    ensures { client.NeverGetsStuck }
{}

/// Only keys never fill the queue of what a client sends, so that its core never waits for the
/// server to read.
pub fn keys_never_wait_to_be_sent()
    ensures { client.NeverWaitsToSend }
{}

/// If nothing outside happens, the threads of a client's session come to rest, after at most 36
/// steps, four for each place of the mailbox and one for each of the queue.
pub fn a_client_comes_to_rest()
    ensures { client.ComesToRest }
{}
