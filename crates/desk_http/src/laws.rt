//! Laws of the definitions, each as the contract of a function with an empty body.
ghost use Rattle.desk_http.specs.HeadLaws.{HeadsAreOne, NoHeadIsNone};
ghost use Rattle.desk_http.specs.RequestLaws.{NamedIsOne, OriginsAreRefused, RequestsAreOne};

/// An input begins with at most one head, and that determines what follows it. If what was read is not a head, the input begins with none
/// within the limits. So no head is answered but the one that was sent.
pub fn heads_are_one()
    ensures one { HeadsAreOne }
    ensures none { NoHeadIsNone }
{}

/// An input is at most one request. A path names at most one resource, with the names in it. Whatever was read of an input and whatever is
/// left of it, the request and its body are the same. A request whose head has an origin is refused, and nothing after its head is read.
pub fn requests_are_one()
    ensures named { NamedIsOne }
    ensures one { RequestsAreOne }
    ensures origin { OriginsAreRefused }
{}
