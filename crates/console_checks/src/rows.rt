// Rows of the tables: a call, with its answer or its refusal. (A pair takes fewer lines than an `Entry` would.)
use histories::Call;
use rounding::Refusal;
use runs::Answer;

pub type Row = (Call, Result<Answer, Refusal>);
