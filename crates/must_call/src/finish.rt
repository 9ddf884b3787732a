//! Calls that complete, test, free and cancel requests (MPI 3.1 section 3.7).

ghost use Rattle.std.specs.Prelude.{◌≡◌};
ghost use Rattle.std.specs.Option.{option_map};
ghost use Rattle.must_call.specs.declared.body.Body.TheVariants as body;
ghost use Rattle.must_call.specs.Kinds.{kind_of};
ghost use Rattle.must_call.specs.Bodies.{inputs_of, given_of};
ghost use Rattle.must_call.specs.Arguments.{all_seen, output_seen};

use crate::argument::{
    Argument, Arguments, Given, given_choice, given_completions, given_maybe_choice,
    given_maybe_status, given_maybe_statuses, given_status, given_statuses, listed,
};
use crate::field::Handle;
use crate::items::Choice;
use crate::kind::Kind;
use crate::lists::{CompletionList, HandleList, StatusList};
use crate::status::Status3;

/// A call that takes a request or a list of requests. A status stands where MPI gave one.
#[derive(Drop)]
pub enum Finish {
    /// `MPI_Wait`.
    Wait {
        request: u32,
        status: Option<Status3>,
    },
    /// `MPI_Waitall`.
    Waitall {
        requests: HandleList,
        statuses: Option<StatusList>,
    },
    /// `MPI_Waitany`.
    Waitany {
        requests: HandleList,
        choice: Option<Choice>,
    },
    /// `MPI_Waitsome`. The outer option says whether the call returned; the inner one is none where the count was -1.
    Waitsome {
        requests: HandleList,
        completions: Option<Option<CompletionList>>,
    },
    /// `MPI_Test`. The outer option says whether the call returned; the inner one is none where the flag was 0.
    Test {
        request: u32,
        status: Option<Option<Status3>>,
    },
    /// `MPI_Testall`. The outer option says whether the call returned; the inner one is none where the flag was 0.
    Testall {
        requests: HandleList,
        statuses: Option<Option<StatusList>>,
    },
    /// `MPI_Testany`. The outer option says whether the call returned; the inner one is none where the flag was 0.
    Testany {
        requests: HandleList,
        choice: Option<Option<Choice>>,
    },
    /// `MPI_Testsome`. The outer option says whether the call returned; the inner one is none where the count was -1.
    Testsome {
        requests: HandleList,
        completions: Option<Option<CompletionList>>,
    },
    /// `MPI_Request_free`.
    RequestFree {
        request: u32,
    },
    /// `MPI_Cancel`.
    Cancel {
        request: u32,
    },
}

impl Finish {
    /// The kind of the call.
    pub fn kind(&self) -> Kind
        ensures { result ≡ kind_of (body.Finish self.now) }
    {
        match self {
            Finish::Wait { .. } => Kind::Wait,
            Finish::Waitall { .. } => Kind::Waitall,
            Finish::Waitany { .. } => Kind::Waitany,
            Finish::Waitsome { .. } => Kind::Waitsome,
            Finish::Test { .. } => Kind::Test,
            Finish::Testall { .. } => Kind::Testall,
            Finish::Testany { .. } => Kind::Testany,
            Finish::Testsome { .. } => Kind::Testsome,
            Finish::RequestFree { .. } => Kind::RequestFree,
            Finish::Cancel { .. } => Kind::Cancel,
        }
    }

    /// The fields that stand in each record of the kind.
    pub fn inputs(&self) -> Arguments<'_>
        ensures { all_seen result.items ≡ inputs_of (body.Finish self.now) }
    {
        match self {
            Finish::Wait { request, .. }
            | Finish::Test { request, .. }
            | Finish::RequestFree { request }
            | Finish::Cancel { request } => listed(&[Argument::Handle(Handle::Request, *request)]),
            Finish::Waitall { requests, .. }
            | Finish::Waitany { requests, .. }
            | Finish::Waitsome { requests, .. }
            | Finish::Testall { requests, .. }
            | Finish::Testany { requests, .. }
            | Finish::Testsome { requests, .. } => listed(&[Argument::Requests(requests)]),
        }
    }

    /// The outputs, where they stand.
    pub fn given(&self) -> Option<Given<'_>>
        ensures { option_map output_seen result ≡ given_of (body.Finish self.now) }
    {
        match self {
            Finish::Wait { status, .. } => given_status(status),
            Finish::Waitall { statuses, .. } => given_statuses(statuses),
            Finish::Waitany { choice, .. } => given_choice(choice),
            Finish::Waitsome { completions, .. } | Finish::Testsome { completions, .. } =>
                given_completions(completions),
            Finish::Test { status, .. } => given_maybe_status(status),
            Finish::Testall { statuses, .. } => given_maybe_statuses(statuses),
            Finish::Testany { choice, .. } => given_maybe_choice(choice),
            Finish::RequestFree { .. } | Finish::Cancel { .. } => None,
        }
    }
}
