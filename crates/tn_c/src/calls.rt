//! The effect of each call on its handle.

/// Takes out what the handle holds, calls it if it is of this kind, and puts it back.
macro_rules! call_held {
    ($handle:ident, $alloc:ident, $kind:ident, $held:ident => $call:expr) => {{
        let Some(mut boxed) = $handle.take($alloc) else {
            return Code::NotStarted.number();
        };
        match &mut *boxed {
            Held::$kind($held) => {
                let code = $call;
                $handle.answer(boxed, code)
            },
            _ => $handle.answer(boxed, Code::OtherKind),
        }
    }};
}

pub(crate) use call_held;
