//! The number of jobs that a session makes.

use super::runs::serve;
use super::sessions::Echo;
use std::alloc::{AllocError, Global};
use std::process::Abort;
use std::sync::Arc;
use std::sync::atomic::{AtomicU64, Ordering};
use std::test::Fail;
use tn_discipline::Settings;
use tn_server::Editing;
use tn_session::{Maker, Unwatched};

/// Has more jobs than a session runs, and counts those that were asked for.
#[derive(Drop)]
struct Counted {
    asked: Arc<AtomicU64, Global>,
}

impl Maker for Counted {
    type Job = Echo;

    fn next(&mut self, _alloc: Global) -> Result<Option<Echo>, AllocError> {
        self.asked.fetch_add(1, Ordering::SeqCst);
        Ok(Some(Echo))
    }
}

#[test]
fn a_session_asks_for_sixteen_jobs_and_no_more(rt: HostRuntime) -> Result<(), Fail> {
    let alloc = rt.alloc();
    let asked = Arc::new(alloc, AtomicU64::new(0))?;
    let maker = Counted {
        asked: Arc::try_clone(&asked)?,
    };
    let (input, mut out) = (b"".as_slice(), Vec::new(alloc));
    let (settings, editing) = (Settings::standard(), Editing::Remote);
    let served = serve(
        rt, alloc, input, &mut out, settings, editing, maker, Unwatched,
    );
    served?;
    assert!(rt; asked.load(Ordering::SeqCst) == 16);
    Ok(())
}
