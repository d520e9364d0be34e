// A call on the service.
use crate::handle_calls::HandleCall;
use crate::op::Op;
use crate::store_calls::StoreCall;

/// A call on the store, or on one of the caller's handles.
#[derive(Clone, Copy, Drop)]
pub enum Call<'a> {
    OnStore(StoreCall<'a>),
    OnHandle(Op, HandleCall<'a>),
}
